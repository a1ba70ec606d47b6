//! How a card runs the script that its store has begun.

ghost use Rattle.std.specs.Prelude.{◌≡◌, ◌≤◌, true, length, IfOk, IfErr, OnOk};
ghost use Rattle.card_store.specs.Content.{Content};
ghost use Rattle.card_store.specs.Store.{HasRoom, StandsFor};
ghost use Rattle.command_packet.specs.declared.opening.Command.{Command};
ghost use Rattle.disk_model.specs.Disk.{DiskRun, Tells};
ghost use Rattle.receiving_entity.specs.Receiving.{CardCause};
ghost use Rattle.receiving_entity.specs.Running.{HasHalted, HasRun, HoldsSome, IsWantOrCut};
ghost use Rattle.receiving_entity.specs.Taking.{taken};

use crate::card_errors::CardErr;
use crate::stops::card_error_of;
use apdu_codec::Reply;
use arrayvec::ArrayVec;
use card_store::CardStore;
use disk_model::DiskCalls;
use script_engine::Ran;

/// Runs the commands that are left of the script that was stored last, each durable before the next.
pub fn run_script<D: DiskCalls>(store: &mut CardStore<D>) -> Result<Ran, CardErr>
    requires ready { store.old.ready ≡ true }
    requires room { HasRoom store.old }
    ensures ran { (content : Content) (command : Command) → StandsFor D.told store.old (taken store.old.facts content command 0) → IfOk result (HasRun D.told store.old store.new content command) }
    ensures halted { (content : Content) (command : Command) → StandsFor D.told store.old (taken store.old.facts content command 0) → IfErr result (HasHalted D.told store.old store.new content command) }
    ensures moments { Tells D.told store.old.disk → (content : Content) (command : Command) → StandsFor D.told store.old (taken store.old.facts content command 0) → DiskRun D.told store.old.disk store.new.disk (HoldsSome store.old content command) }
    ensures short { IfOk result (λ ran. length ran.reply.out.items ≤ 256) }
    ensures ready { OnOk result (store.new.ready ≡ true) }
    ensures facts { store.new.facts ≡ store.old.facts }
    ensures tells { D.told.tells store.new.disk ≡ D.told.tells store.old.disk }
    ensures cause { CardCause (D.counts store.old.disk) (D.counts store.new.disk) result }
    ensures err { IfErr result IsWantOrCut }
{
    let mut ran = Ran {
        count: 0,
        reply: Reply::done(ArrayVec::new()),
    };
    while store.has_command() {
        match store.do_command() {
            Ok(step) => {
                ran = Ran {
                    count: ran.count + 1,
                    reply: step.reply,
                };
            }
            Err(error) => return Err(card_error_of(error)),
        }
    }
    Ok(ran)
}
