// A session in whichever phase it is, and what one event makes of it.
ghost use Rattle.std.specs.Prelude.{◌≡◌};
ghost use Rattle.book.specs.View.{rule_of};
ghost use Rattle.day.specs.Running.{Stepped, summary_of_closed};
ghost use Rattle.day.specs.declared.running.Session.TheVariants as phase;

use book::memory::Memory;
use market::{Answer, Event, Refusal, Summary};
use precedence::rules::Rule;
use session::states::{Closed, Open, PreOpen};

// What comes of an event.
pub type Outcome = Result<Answer, Refusal>;

pub enum Session {
    Early(PreOpen),
    Trading(Open),
    Over(Closed),
}

// What both phases take has an arm here and in `after_bell`: a third function would still have to say which events it leaves.
fn before_bell<R: Rule>(
    mut session: PreOpen,
    rule: &R,
    memory: &mut Memory,
    event: &Event,
) -> (Session, Outcome)
    ensures { Stepped (rule_of (R.quotes rule.now) (R.orders rule.now)) event.now (phase.Early session) result.0 memory.old memory.new result.1 }
{
    let outcome = match *event {
        Event::Clock { time } => session.step(rule, memory, time),
        Event::Quote { dealer, pair } => session.quote(rule, memory, dealer, pair),
        Event::Withdraw { dealer } => session.withdraw(rule, memory, dealer),
        Event::Bell => return ring(session, rule, memory),
        Event::Make { .. }
        | Event::Order { .. }
        | Event::Cancel { .. }
        | Event::Click { .. }
        | Event::Close => Err(Refusal::OutOfTurn),
    };
    (Session::Early(session), outcome)
}

fn ring<R: Rule>(session: PreOpen, rule: &R, memory: &mut Memory) -> (Session, Outcome)
    ensures { Stepped (rule_of (R.quotes rule.now) (R.orders rule.now)) Event.Bell (phase.Early session) result.0 memory.old memory.new result.1 }
{
    match session.ring(rule, memory) {
        Ok(open) => (Session::Trading(open), Ok(Answer::Rung)),
        // The session goes on beside the refusal, so `?` would lose it.
        Err((refusal, session)) => (Session::Early(session), Err(refusal)),
    }
}

fn after_bell<R: Rule>(
    mut session: Open,
    rule: &R,
    memory: &mut Memory,
    event: &Event,
) -> (Session, Outcome)
    ensures { Stepped (rule_of (R.quotes rule.now) (R.orders rule.now)) event.now (phase.Trading session) result.0 memory.old memory.new result.1 }
{
    let outcome = match *event {
        Event::Clock { time } => session.step(rule, memory, time),
        Event::Withdraw { dealer } => session.withdraw(rule, memory, dealer),
        Event::Close => return (Session::Over(session.close()), Ok(Answer::Closed)),
        Event::Make { .. }
        | Event::Quote { .. }
        | Event::Bell
        | Event::Order { .. }
        | Event::Cancel { .. }
        | Event::Click { .. } => Err(Refusal::OutOfTurn),
    };
    (Session::Trading(session), outcome)
}

impl Session {
    // Takes one event, and gives the session after it and what came of it. An event that the phase does not have is out of turn.
    pub fn take<R: Rule>(self, rule: &R, memory: &mut Memory, event: &Event) -> (Session, Outcome)
        ensures { Stepped (rule_of (R.quotes rule.now) (R.orders rule.now)) event.now self result.0 memory.old memory.new result.1 }
    {
        match self {
            Session::Early(session) => before_bell(session, rule, memory, event),
            Session::Trading(session) => after_bell(session, rule, memory, event),
            Session::Over(session) => (Session::Over(session), Err(Refusal::OutOfTurn)),
        }
    }

    // Ends the session. Gives what it came to, where it was closed; one that was not is given up.
    pub fn end(self) -> Option<Summary>
        ensures { result ≡ summary_of_closed self }
    {
        match self {
            Session::Early(session) => {
                session.abandon();
                None
            }
            Session::Trading(session) => {
                let _ = session.close().summary();
                None
            }
            Session::Over(session) => Some(session.summary()),
        }
    }
}
