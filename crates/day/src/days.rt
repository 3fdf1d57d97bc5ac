// A day: records in, answers and faults out.
ghost use Rattle.std.specs.Prelude.{◌≡◌};
ghost use Rattle.day.specs.Course.{precedence_of, making_of, BeginsBy, told, GoesOnBy, past_end, TakenBy, Taken, read_as, Reading, summary_at};

use crate::faults::Fault;
use crate::rulings::Ruling;
use crate::running::{Outcome, Session};
use crate::stages::{Day, Stage};
use book::memory::Memory;
use market::{Answer, Config, Event, Refusal, Summary};
use records::read;
use session::states::PreOpen;
use std::mem;

// The event of a record, or the reader's fault.
fn read_at(place: u32, bytes: &[u8]) -> Result<Event, Fault>
    ensures { Reading bytes.now (λ a. result ≡ read_as place a) }
{
    read::<Event>(bytes).map_err(|malformed| Fault::Reader { place, malformed })
}

// The rule and the numbers of a making. Another event is out of turn.
fn making_at(place: u32, event: &Event) -> Result<(Ruling, Config), Fault>
    ensures { result ≡ making_of place event.now }
{
    let Event::Make { config, rule } = *event else {
        return Err(Fault::Day {
            place,
            refusal: Refusal::OutOfTurn,
        });
    };
    let rule = Ruling::try_from(rule).map_err(|_| Fault::Day {
        place,
        refusal: Refusal::BadConfig,
    })?;
    Ok((rule, config))
}

// Makes a session from the first record, which has to be a making.
fn begin(place: u32, memory: &mut Memory, bytes: &[u8]) -> Result<(Ruling, PreOpen), Fault>
    ensures { Reading bytes.now (λ a. BeginsBy place a memory.old memory.new result) }
{
    let event = read_at(place, bytes)?;
    let (rule, config) = making_at(place, &event)?;
    let made = PreOpen::new(config, memory).map_err(|refusal| Fault::Session { place, refusal })?;
    Ok((rule, made))
}

// What came of an event, with the layer and the place of a refusal.
fn answer_at(place: u32, outcome: Outcome) -> Result<Answer, Fault>
    ensures { result ≡ told place outcome }
{
    outcome.map_err(|refusal| match refusal {
        Refusal::OutOfTurn => Fault::Day { place, refusal },
        _ => Fault::Session { place, refusal },
    })
}

// A record for a running session.
fn go_on(
    place: u32,
    rule: Ruling,
    session: Session,
    memory: &mut Memory,
    bytes: &[u8],
) -> (Session, Result<Answer, Fault>)
    ensures { Reading bytes.now (λ a. GoesOnBy place (precedence_of rule) a session result.0 memory.old memory.new result.1) }
{
    match read_at(place, bytes) {
        Ok(event) => {
            let (session, outcome) = session.take(&rule, memory, &event);
            (session, answer_at(place, outcome))
        }
        // The session goes on beside the fault, so `?` would lose it.
        Err(fault) => (session, Err(fault)),
    }
}

// A record after the day has ended: each event is out of turn.
fn refuse_at(place: u32, bytes: &[u8]) -> Result<Answer, Fault>
    ensures { Reading bytes.now (λ a. result ≡ past_end place a) }
{
    read_at(place, bytes)?;
    Err(Fault::Day {
        place,
        refusal: Refusal::OutOfTurn,
    })
}

// The stage after a record, and the answer to it.
fn after(
    stage: Stage,
    place: u32,
    memory: &mut Memory,
    bytes: &[u8],
) -> (Stage, Result<Answer, Fault>)
    ensures { Reading bytes.now (λ a. TakenBy place a stage result.0 memory.old memory.new result.1) }
{
    match stage {
        Stage::Unmade => match begin(place, memory, bytes) {
            Ok((rule, session)) => {
                let session = Session::Early(session);
                (Stage::Running { rule, session }, Ok(Answer::Made))
            }
            // The stage goes on beside the fault, so `?` would lose it.
            Err(fault) => (Stage::Ended, Err(fault)),
        },
        Stage::Running { rule, session } => {
            let (session, answer) = go_on(place, rule, session, memory, bytes);
            (Stage::Running { rule, session }, answer)
        }
        Stage::Ended => (Stage::Ended, refuse_at(place, bytes)),
    }
}

impl Day {
    pub fn new() -> Day
        ensures place { result.place ≡ 0 }
        ensures stage { result.stage ≡ Stage.Unmade }
    {
        Day {
            place: 0,
            stage: Stage::Unmade,
        }
    }

    // Takes the bytes of one record: malformed ones are refused first, then events out of turn, then what the session refuses.
    pub fn take(&mut self, memory: &mut Memory, bytes: &[u8]) -> Result<Answer, Fault>
        ensures { Taken bytes.now self.old self.new memory.old memory.new result }
    {
        self.place = self.place.saturating_add(1);
        let was = mem::replace(&mut self.stage, Stage::Ended);
        let (next, answer) = after(was, self.place, memory, bytes);
        match mem::replace(&mut self.stage, next) {
            Stage::Ended => answer,
            _ => unreachable!(),
        }
    }

    // Ends the day. Gives what it came to, where it was closed.
    pub fn end(self) -> Option<Summary>
        ensures { result ≡ summary_at self.stage }
    {
        let Day { place: _, stage } = self;
        match stage {
            Stage::Running { rule: _, session } => session.end(),
            Stage::Unmade | Stage::Ended => None,
        }
    }
}
