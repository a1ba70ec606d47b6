//! How parts are added to a store's log.

ghost use Rattle.std.specs.Prelude.{nat_le, ◌≡◌, ◌⊎◌, ℕ, ◌+◌, ◌≤◌, ◌<◌, ◌^◌, List, [], ◌∷◌, length, Some, IfErr, OnOk, OnErr};
ghost use Rattle.disk_model.specs.Disk.{Tells, DiskRun};
ghost use Rattle.gate_log.specs.Opening.{IsOpenLog, LIMIT as MOST, need_of};
ghost use Rattle.ota_core.specs.declared.cards.CardFacts.{CardFacts};
ghost use Rattle.card_store.specs.Content.{Content};
ghost use Rattle.card_store.specs.Replay.{Holds, after_part};
ghost use Rattle.card_store.specs.Store.{NeedsFor, IsKeptOn, IsFault, AddTicks, StoreCause};

use crate::store_errors::StoreErr;
use apdu_codec::count_commands;
use disk_model::DiskCalls;
use gate_log::{Batch, Log};

/// The greatest length of a store in octets.
const LIMIT: u64 = 16_777_216;

/// The octets that a counter needs beside its script, with its batch, and those that a command needs.
const COUNTER_NEED: u64 = 19;

const COMMAND_NEED: u64 = 10;

/// The octets that a counter with its TAR and this script needs, and the commands of the script.
pub fn counter_need(body: &[u8]) -> u64
    requires { length body.now ≤ 34168 }
    ensures need { NeedsFor body.now result }
    ensures small { result < 2 ^ 32 }
{
    COUNTER_NEED + body.len() as u64 + COMMAND_NEED * u64::from(count_commands(body))
}

/// Whether so many octets have room behind a log of this length.
pub fn has_room(len: u64, need: u64) -> bool
    ensures { result ≡ nat_le (len + need) MOST }
{
    len <= LIMIT && need <= LIMIT - len
}

/// Adds one part to the log, for which there is room.
pub fn append_part<D: DiskCalls>(disk: &mut D, log: &mut Log, batch: &Batch) -> Result<(), StoreErr>
    requires one { length batch.now.parts ≡ 1 }
    requires fits { log.old + need_of batch.now.parts ≤ MOST }
    requires settled { Tells D.told disk.old → IsOpenLog D.told disk.old log.old }
    ensures moments { Tells D.told disk.old → (facts : CardFacts) (content next : Content) (part : List ℕ) → batch.now.parts ≡ part ∷ []
        → IsKeptOn D.told disk.old facts log.old content → after_part facts content part ≡ Some next
        → DiskRun D.told disk.old disk.new (λ image. Holds facts content image ⊎ Holds facts next image) }
    ensures kept { Tells D.told disk.old → (facts : CardFacts) (content next : Content) (part : List ℕ) → batch.now.parts ≡ part ∷ []
        → IsKeptOn D.told disk.old facts log.old content → after_part facts content part ≡ Some next
        → OnOk result (IsKeptOn D.told disk.new facts log.new next) }
    ensures length { OnOk result (log.new ≡ log.old + need_of batch.now.parts) }
    ensures same { OnErr result (log.new ≡ log.old) }
    ensures clock { Tells D.told disk.old → AddTicks (D.told.clock disk.old) (D.told.clock disk.new) result }
    ensures tells { D.told.tells disk.new ≡ D.told.tells disk.old }
    ensures cause { StoreCause (D.counts disk.old) (D.counts disk.new) result }
    ensures err { IfErr result IsFault }
{
    log.append(disk, batch)?;
    Ok(())
}
