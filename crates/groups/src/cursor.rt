// One number after the other, up to the first refusal.
ghost use Rattle.std.specs.Prelude.{◌≡◌};
ghost use Rattle.groups.specs.Cursor.{number_from, number_within, numbers_from};
ghost use Rattle.groups.specs.Told.{standing, cursor_on, Took};

use super::numbers::number_at;
use base::refusals::Refusal;

// A trace, and the place of the next byte or the refusal that was met. After one nothing is read.
#[derive(Clone, Copy)]
pub struct Cursor<'a> {
    pub trace: &'a [u8],
    pub place: Result<usize, Refusal>,
}

impl<'a> Cursor<'a> {
    // A cursor at a place of a trace.
    pub fn on(trace: &'a [u8], at: usize) -> Cursor<'a>
        ensures { result ≡ cursor_on trace.entry at }
    {
        Cursor {
            trace,
            place: Ok(at),
        }
    }

    // The next number.
    #[tactic(auto, using(crate::proofs::ToldLaws::place_refused, crate::proofs::ReadLaws::stays_stopped, crate::proofs::ToldLaws::number_refused))]
    pub fn number(&mut self) -> Result<u64, Refusal>
        ensures { let x = number_from self.old.trace.now (standing self.old.place) in Took self.old result self.new x.value x.cursor }
    {
        let at = self.place?;
        match number_at(self.trace, at) {
            Ok(number) => {
                self.place = Ok(number.next);
                Ok(number.value)
            }
            Err(refusal) => {
                self.place = Err(refusal);
                Err(refusal)
            }
        }
    }

    // A number that stands for something only from least to most.
    #[tactic(auto, using(crate::proofs::ToldLaws::hands_on, crate::proofs::CursorLaws::held), unfolding(crate::specs::Cursor::number_within))]
    pub fn number_within(&mut self, least: u64, most: u64) -> Result<u64, Refusal>
        ensures { let x = number_within least most self.old.trace.now (standing self.old.place) in Took self.old result self.new x.value x.cursor }
    {
        let value = self.number()?;
        if value < least || most < value {
            self.place = Err(Refusal::Unreadable);
            return Err(Refusal::Unreadable);
        }
        Ok(value)
    }

    // So many numbers.
    #[tactic(auto, using(crate::proofs::ToldLaws::place_refused, crate::proofs::ReadLaws::numbers_stay_stopped))]
    pub fn numbers<const N: usize>(&mut self) -> Result<[u64; N], Refusal>
        ensures { let x = numbers_from N self.old.trace.now (standing self.old.place) in Took self.old result self.new x.values x.cursor }
    {
        self.place?;
        let mut values = [0u64; N];
        for value in values.iter_mut() {
            *value = self.number()?;
        }
        Ok(values)
    }
}
