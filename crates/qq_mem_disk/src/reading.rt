ghost use Rattle.std.specs.Prelude.{◌≤◌, length};
ghost use Rattle.qq_disk.specs.Disk.{IsRead};

/// Copies bytes from a place on into a buffer, and answers how many.
pub fn read_into(bytes: &[u8], place: u64, buf: &mut [u8]) -> usize
    ensures read { IsRead bytes.now place result buf.old buf.new }
    ensures within { result ≤ length buf.old }
{
    if place >= bytes.len() as u64 {
        return 0;
    }
    let (_, rest) = bytes.split_at(place as usize);
    let count = rest.len().min(buf.len());
    let (piece, _) = rest.split_at(count);
    let (front, _) = buf.split_at_mut(count);
    front.copy_from_slice(piece);
    count
}
