//! The call that the program makes.
ghost use Rattle.std.specs.Prelude.{◌≡◌, ◌⊎◌, ℕ, None, Some, IsSome};
ghost use Rattle.bt_base.specs.Counts.{Risen};
ghost use Rattle.bt_gate.specs.Faults.{Failed};
ghost use Rattle.bt_state.specs.State.{State};
ghost use Rattle.bt_crash.specs.Moments.{Keeps};
ghost use Rattle.bt_store.specs.Held.{HoldsState, IsBroken, IsSound, LikeSome, disk_state};
ghost use Rattle.bt_words.specs.Words.{command_of};
ghost use Rattle.bt_top.specs.Ends.{EndedRun, IsOfLoading, WhereItFailed, connections_of, exit_of, standard_limits};

use crate::exit::Exit;
use crate::serving::session;
use bt_outside::{Clock, Disk, Links, Print};
use bt_store::{Limits, Store, StoreFault};
use bt_types::TextList;
use bt_words::{Command, WordsRefusal, read_words};
use std::alloc::Global;
use std::mem;

/// Does what the words of the command line ask for, over this disk, these links, this clock and
/// this screen.
///
/// `run DIR` loads the tables that the disk holds and serves one connection, and
/// `serve DIR ADDRESS COUNT` so many connections, one after another. The folder and the address are
/// the caller's to give to the disk and the links. The clauses speak of the disk, the links and the
/// clock where they tell what they hold: `run` says that what was written is a run of the abstract
/// service from the state that the disk held, with each connection's mark and its cause, that the
/// disk holds the state after it, that a crash at each moment leaves the state after a prefix of its
/// records with every acknowledged one, and that the run is complete where no fault was counted.
/// Over files that stand for no state nothing is served, and they stay broken at the same place.
///
/// The memory of the tables is left to the end of the process, so a process calls it once.
pub fn bigtable<D: Disk, L: Links<D>, C: Clock, P: Print>(
    alloc: Global,
    words: &TextList,
    disk: &mut D,
    links: &mut L,
    clock: &mut C,
    screen: &mut P,
) -> Exit
    ensures run { D.tells → L.tells → C.tells clock.new → (s : State) → HoldsState s (D.held disk.old) → EndedRun D.Disk result standard_limits (connections_of (command_of words.now)) s disk.old disk.new (L.left links.old) (L.left links.new) (L.sent links.old) (L.sent links.new) (C.told clock.old) (C.told clock.new) (L.faults links.old) (L.faults links.new) }
    ensures clock_tells { C.tells clock.new → C.tells clock.old }

    // When each exit comes.
    ensures usage { result ≡ Exit.Usage → command_of words.now ≡ None }
    ensures no_command { command_of words.now ≡ None → (result ≡ Exit.Usage) ⊎ (result ≡ Exit.OutOfMemory) }
    ensures usage_does_nothing { result ≡ Exit.Usage → (links.new ≡ links.old) × (clock.new ≡ clock.old) × (disk.new ≡ disk.old) }
    ensures out_of_memory { result ≡ Exit.OutOfMemory → (links.new ≡ links.old) × (clock.new ≡ clock.old) }
    ensures disk_fault { result ≡ Exit.DiskFault → Failed D.Disk disk.old disk.new × WhereItFailed D.Disk disk.old disk.new ((links.new ≡ links.old) × (clock.new ≡ clock.old)) }
    ensures damaged { (file at : ℕ) → result ≡ Exit.Damaged file at → (D.tells → IsBroken (D.held disk.old) file at) × (links.new ≡ links.old) × (clock.new ≡ clock.old) }
    ensures unsound { D.tells → (IsSound (D.held disk.old) → ⊥) → (links.new ≡ links.old) × (clock.new ≡ clock.old) }
    ensures unsound_exit { D.tells → (IsSound (D.held disk.old) → ⊥) → IsSome (command_of words.now) → IsOfLoading result }
    ensures unsound_stays { D.tells → (IsSound (D.held disk.old) → ⊥) → disk_state (D.held disk.new) ≡ disk_state (D.held disk.old) }
    ensures unsound_images { D.tells → (IsSound (D.held disk.old) → ⊥) → Keeps D.Disk disk.old disk.new (LikeSome (D.may_leave disk.old)) }
    ensures link_fault { result ≡ Exit.LinkFault → Risen (L.next_faults links.old) (L.next_faults links.new) }
    ensures no_fault { IsSome (command_of words.now) → D.tells → IsSound (D.held disk.old) → (Risen (D.faults disk.old) (D.faults disk.new) → ⊥) → (Risen (L.next_faults links.old) (L.next_faults links.new) → ⊥) → (result ≡ Exit.Done) ⊎ (result ≡ Exit.OutOfMemory) }

    ensures screen { screen.new ≡ screen.old }
{
    let _ = screen;
    match read_words(alloc, words) {
        Ok(command) => served(alloc, disk, links, clock, connections_of(&command)),
        Err(WordsRefusal::Usage) => Exit::Usage,
        Err(WordsRefusal::OutOfMemory) => Exit::OutOfMemory,
    }
}

// How many connections a command serves at most.
fn connections_of(command: &Command) -> u32
    ensures { result ≡ connections_of (Some command.now) }
{
    match command {
        Command::Run { .. } => 1,
        Command::Serve { count, .. } => *count,
    }
}

// Loads the tables, and serves so many connections. To let each row go at the end would only make it later.
fn served<D: Disk, L: Links<D>, C: Clock>(
    alloc: Global,
    disk: &mut D,
    links: &mut L,
    clock: &mut C,
    count: u32,
) -> Exit
    ensures run { D.tells → L.tells → C.tells clock.new → (s : State) → HoldsState s (D.held disk.old) → EndedRun D.Disk result standard_limits count s disk.old disk.new (L.left links.old) (L.left links.new) (L.sent links.old) (L.sent links.new) (C.told clock.old) (C.told clock.new) (L.faults links.old) (L.faults links.new) }
    ensures clock_tells { C.tells clock.new → C.tells clock.old }
    ensures no_usage { (result ≡ Exit.Usage) → ⊥ }
    ensures out_of_memory { result ≡ Exit.OutOfMemory → (links.new ≡ links.old) × (clock.new ≡ clock.old) }
    ensures disk_fault { result ≡ Exit.DiskFault → Failed D.Disk disk.old disk.new × WhereItFailed D.Disk disk.old disk.new ((links.new ≡ links.old) × (clock.new ≡ clock.old)) }
    ensures damaged { (file at : ℕ) → result ≡ Exit.Damaged file at → (D.tells → IsBroken (D.held disk.old) file at) × (links.new ≡ links.old) × (clock.new ≡ clock.old) }
    ensures unsound { D.tells → (IsSound (D.held disk.old) → ⊥) → (links.new ≡ links.old) × (clock.new ≡ clock.old) }
    ensures unsound_exit { D.tells → (IsSound (D.held disk.old) → ⊥) → IsOfLoading result }
    ensures unsound_stays { D.tells → (IsSound (D.held disk.old) → ⊥) → disk_state (D.held disk.new) ≡ disk_state (D.held disk.old) }
    ensures unsound_images { D.tells → (IsSound (D.held disk.old) → ⊥) → Keeps D.Disk disk.old disk.new (LikeSome (D.may_leave disk.old)) }
    ensures link_fault { result ≡ Exit.LinkFault → Risen (L.next_faults links.old) (L.next_faults links.new) }
{
    match Store::load(alloc, disk, &Limits::standard()) {
        Ok(mut store) => {
            let exit = session(alloc, &mut store, disk, links, clock, count);
            mem::forget(store);
            exit
        }
        Err(fault) => exit_of(fault),
    }
}

// How a run ends that could not load the tables. Loading writes no record that could be too large.
fn exit_of(fault: StoreFault) -> Exit
    ensures { result ≡ exit_of fault }
{
    match fault {
        StoreFault::DiskFailed | StoreFault::TooLarge { .. } => Exit::DiskFault,
        StoreFault::Damaged { file, at } => Exit::Damaged { file, at },
        StoreFault::OutOfMemory => Exit::OutOfMemory,
    }
}
