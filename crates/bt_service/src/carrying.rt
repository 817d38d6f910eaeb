//! A plan, carried out.
ghost use Rattle.std.specs.Prelude.{◌≡◌, ◌≤◌, ℕ, List};
ghost use Rattle.bt_entry.specs.Grammar.{last_moment};
ghost use Rattle.bt_plans.specs.Plans.{IsPlan};
ghost use Rattle.bt_plans.specs.Replies.{Reply};
ghost use Rattle.bt_service.specs.Outcomes.{FailsIf, IsUsable, SaysSo, has_ended, outcome_of, says};
ghost use Rattle.bt_service.specs.Steps.{Made, MadeBy};
ghost use Rattle.bt_state.specs.State.{State};
ghost use Rattle.bt_store.specs.Stands.{Stands};

use crate::committing::{ChangeFault, commit_records};
use crate::outcome::Outcome;
use bt_base::OutOfMemory;
use bt_messages::Refusal;
use bt_outside::Disk;
use bt_plans::{Answer, Plan};
use bt_replies::planned;
use bt_store::Store;
use std::alloc::Global;

/// Makes the change of a line, if it has one, as far as it can be made.
pub(crate) fn made<D: Disk>(
    alloc: Global,
    store: &mut Store,
    disk: &mut D,
    line: &[u8],
    moment: u64,
) -> Outcome
    requires stands { D.tells → (s : State) × Stands store.old s (D.held disk.old) (D.may_leave disk.old) }
    requires not_before { store.old.present.floor ≤ moment }
    requires not_past { moment ≤ last_moment }
    ensures made { D.tells → (s : State) → Stands store.old s (D.held disk.old) (D.may_leave disk.old) → MadeBy D.Disk store.old.limits s store.old.present moment line.now disk.old disk.new store.new result }
    ensures usable { D.tells → IsUsable D.Disk (has_ended result) store.new disk.new }
    ensures counted { FailsIf D.Disk (has_ended result) disk.old disk.new }
    ensures limits { store.new.limits ≡ store.old.limits }
{
    match planned(alloc, store.present(), line, moment) {
        Ok(plan) => carried_out(alloc, store, disk, plan),
        Err(OutOfMemory) => said(Answer::Refused(Refusal::OutOfMemory)),
    }
}

fn said(answer: Answer) -> Outcome
    ensures { result ≡ says answer }
{
    Outcome::Says {
        answer,
        has_ended: false,
    }
}

fn carried_out<D: Disk>(alloc: Global, store: &mut Store, disk: &mut D, plan: Plan) -> Outcome
    requires stands { D.tells → (s : State) × Stands store.old s (D.held disk.old) (D.may_leave disk.old) }
    requires plan { (r : Reply) × IsPlan plan store.old.present r }
    ensures made { D.tells → (s : State) → Stands store.old s (D.held disk.old) (D.may_leave disk.old) → (r : Reply) → IsPlan plan store.old.present r → (out : List ℕ) → SaysSo store.new.present result out → Made D.Disk store.old.limits s r disk.old disk.new store.new out (has_ended result) }
    ensures usable { D.tells → IsUsable D.Disk (has_ended result) store.new disk.new }
    ensures counted { FailsIf D.Disk (has_ended result) disk.old disk.new }
    ensures limits { store.new.limits ≡ store.old.limits }
{
    match plan {
        Plan::Says(answer) => said(answer),
        Plan::Changes { records, answer } => {
            committed(commit_records(alloc, store, disk, records), answer)
        }
        Plan::Reads(read) => Outcome::Reads(read),
    }
}

fn committed(commits: Result<(), ChangeFault>, answer: Answer) -> Outcome
    ensures { result ≡ outcome_of commits answer }
{
    match commits {
        Ok(()) => said(answer),
        Err(ChangeFault::TooLarge) => said(Answer::Refused(Refusal::ChangeTooLarge)),
        Err(ChangeFault::OutOfMemory) => said(Answer::Refused(Refusal::OutOfMemory)),
        Err(ChangeFault::DiskFailed) => Outcome::Says {
            answer: Answer::Refused(Refusal::DiskFailed),
            has_ended: true,
        },
    }
}
