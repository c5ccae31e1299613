//! What a drill draws.
ghost use Rattle.std.specs.Prelude.{◌≡◌, ◌<◌, ◌≤◌, ◌^◌};
ghost use Rattle.qq_drill.specs.Draw.{deed_of, draw_of, drawn, next_x};

/// What is done at a step.
#[derive(Clone, Copy)]
pub enum Deed {
    /// A message is sent.
    Sends,
    /// The next message is asked for.
    Gets,
    /// A consumer is subscribed.
    Subscribes,
    /// A delivery is settled.
    Settles,
    /// A delivery is returned.
    Returns,
    /// A node crashes or restarts.
    Crashes,
    /// Time passes at a member.
    Ticks,
}

/// What a number says.
#[derive(Clone, Copy)]
pub struct Draw {
    /// From 1 to 4.
    pub queue: u32,
    pub deed: Deed,
    /// From 1.
    pub node: u8,
    /// How many bytes a crash leaves of what waited for a sync.
    pub cut: u64,
}

/// The generator's next state.
#[tactic(auto, unfolding(crate::specs::Draw::next_x))]
pub fn next_x(x: u64) -> u64
    ensures { result ≡ next_x x }
{
    let product = x as u128 * 6_364_136_223_846_793_005 + 1_442_695_040_888_963_407;
    (product % (1 << 64)) as u64
}

/// The number that is drawn.
#[tactic(auto, unfolding(crate::specs::Draw::drawn))]
pub fn drawn(x: u64) -> u64
    ensures value { result ≡ drawn x }
    ensures small { result < 2 ^ 31 }
{
    x / (1 << 33)
}

fn deed_of(kind: u64) -> Deed
    ensures { result ≡ deed_of kind }
{
    match kind {
        0..=6 => Deed::Sends,
        7..=9 => Deed::Gets,
        10 => Deed::Subscribes,
        11..=12 => Deed::Settles,
        13 => Deed::Returns,
        14 => Deed::Crashes,
        _ => Deed::Ticks,
    }
}

/// What a number says over so many nodes.
pub fn draw_of(nodes: u8, number: u64) -> Draw
    requires { 0 < nodes }
    ensures { result ≡ draw_of nodes number }
{
    Draw {
        queue: (1 + number % 4) as u32,
        deed: deed_of(number / 4 % 16),
        node: (1 + number / 64 % nodes as u64) as u8,
        cut: number / 512 % 128,
    }
}
