//! Ops are gathered for the log.
ghost use Rattle.std.specs.Prelude.{◌≡◌, ◌++◌, ◌∷◌, [], All, false, IsOkUnless, OnOk};
ghost use Rattle.std.specs.List.{fold};
ghost use Rattle.qq_log.specs.Carries.{GoesOn, add_op};
ghost use Rattle.qq_log.specs.Writable.{MayWrite};
ghost use Rattle.qq_wal.specs.Wal.{IsSound, carries_ahead};
ghost use Rattle.qq_wal_chain.specs.Laws.{op_records};
ghost use Rattle.qq_node_log.specs.Giving.{AllGoOn};

use qq_base::Memory;
use qq_disk::NodeDisk;
use qq_log::Op;
use qq_wal::{Wal, WalFault};

/// Gathers an op.
fn gather_one<D: NodeDisk>(wal: &mut Wal<D>, op: Op) -> Result<(), Memory>
    requires sound { IsSound D.facts wal.old }
    requires going { wal.old.stopped ≡ false }
    requires may { MayWrite op }
    requires goes_on { GoesOn wal.old.queues.items (carries_ahead wal.old) op }
    ensures sound { IsSound D.facts wal.new }
    ensures ok { OnOk result (
        wal.new.waiting.items ≡ wal.old.waiting.items ++ op_records (op ∷ [])) }
    ensures ahead { OnOk result (carries_ahead wal.new ≡ add_op (carries_ahead wal.old) op) }
    ensures same { wal.new ≡ record wal.old { waiting = wal.new.waiting } }
    ensures want { IsOkUnless result Memory.Want }
{
    match wal.gather(op) {
        Ok(()) => Ok(()),
        Err((WalFault::Memory(memory), _)) => Err(memory),
        Err((WalFault::Disk, _)) => unreachable!(),
        Err((WalFault::Stopped, _)) => unreachable!(),
        Err((WalFault::TooLarge, _)) => unreachable!(),
    }
}

/// Gathers ops, in their order, each of which the log takes and goes on with after those before it. Nothing
/// else of the log is changed, and its disk isn't called. The only error is `Want`, out of memory: then the
/// ops that weren't gathered are dropped.
pub(crate) fn gather_all<D: NodeDisk>(wal: &mut Wal<D>, ops: Vec<Op>) -> Result<(), Memory>
    requires sound { IsSound D.facts wal.old }
    requires going { wal.old.stopped ≡ false }
    requires may { All MayWrite ops.items }
    requires goes_on { AllGoOn wal.old.queues.items (carries_ahead wal.old) ops.items }
    ensures sound { IsSound D.facts wal.new }
    ensures ok { OnOk result (
        wal.new.waiting.items ≡ wal.old.waiting.items ++ op_records ops.items) }
    ensures ahead { OnOk result (
        carries_ahead wal.new ≡ fold add_op (carries_ahead wal.old) ops.items) }
    ensures same { wal.new ≡ record wal.old { waiting = wal.new.waiting } }
    ensures want { IsOkUnless result Memory.Want }
{
    'ops: for op in ops {
        gather_one(wal, op)?;
    }
    Ok(())
}
