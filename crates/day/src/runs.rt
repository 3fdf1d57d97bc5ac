// Runs of events, and what is guaranteed of them.
ghost use Rattle.std.specs.Prelude.{◌≡◌, ◌≤◌, [], length, Ok, vec_capacity};
ghost use Rattle.market.specs.declared.Config.{Config as ConfigOf};
ghost use Rattle.book.specs.declared.memory.Memory.{Memory as MemoryOf};
ghost use Rattle.book.specs.View.{rule_of};
ghost use Rattle.session.specs.View.{PreOpen as PreOpenOf, Made};
ghost use Rattle.day.specs.declared.running.Session.TheVariants as phase;
ghost use Rattle.day.specs.Ran.{RunResult, Ran, Played, NotRun};

use crate::running::{Outcome, Session};
use book::memory::Memory;
use market::{Config, Event, Refusal};
use precedence::rules::Rule;
use session::making::may_be_made;
use session::states::PreOpen;
use std::alloc::Global;

// Why a run did not begin.
#[derive(Clone, Copy, PartialEq, Eq, Debug)]
pub enum NoRun {
    // The session could not be made.
    Refused(Refusal),
    // There is no memory for the outcomes.
    NoMemory,
}

// Takes the events one after another, and notes what comes of each. There is room for all outcomes.
// From a session just made, that is a run with all that is guaranteed of it.
fn play<R: Rule>(
    session: Session,
    rule: &R,
    memory: &mut Memory,
    events: &[Event],
    outcomes: &mut Vec<Outcome>,
) -> Session
    requires none { outcomes.old.items ≡ [] }
    requires room { length events.now ≤ vec_capacity outcomes.old }
    ensures played { Played (rule_of (R.quotes rule.now) (R.orders rule.now)) session result memory.old memory.new events.now outcomes.new.items }
    ensures ran { (made : PreOpenOf) (c : ConfigOf) (m : MemoryOf) → session ≡ phase.Early made → Made c m memory.old (Ok made) → Ran (rule_of (R.quotes rule.now) (R.orders rule.now)) c m memory.new events.now result outcomes.new.items }
{
    let mut current = session;
    for event in events {
        let (next, outcome) = current.take(rule, memory, event);
        current = next;
        let _ = outcomes.push(outcome);
    }
    current
}

// Why there is no run where there is no memory for its outcomes: a making outside its limits is refused all the same.
fn without_room(config: &Config, memory: &Memory) -> NoRun
    ensures { NotRun config.now memory.now result }
{
    if may_be_made(config, &memory.places()) {
        NoRun::NoMemory
    } else {
        NoRun::Refused(Refusal::BadConfig)
    }
}

// Makes a session and takes the events one after another, whatever they are, under any lawful rule.
// Gives the session as it then is, and what came of each event.
pub fn run<R: Rule>(
    heap: Global,
    rule: &R,
    config: Config,
    memory: &mut Memory,
    events: &[Event],
) -> Result<(Session, Vec<Outcome>), NoRun>
    ensures { RunResult (rule_of (R.quotes rule.now) (R.orders rule.now)) config memory.old memory.new events.now result }
{
    let Ok(mut outcomes) = Vec::with_capacity(heap, events.len()) else {
        return Err(without_room(&config, memory));
    };
    let made = PreOpen::new(config, memory).map_err(NoRun::Refused)?;
    let session = play(Session::Early(made), rule, memory, events, &mut outcomes);
    Ok((session, outcomes))
}
