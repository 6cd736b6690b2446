// What was logged.
ghost use Rattle.std.specs.Prelude.{◌≡◌};
ghost use Rattle.base.specs.LogStatus.{is_status, status_of, status_from};

use super::refusals::Refusal;

#[derive(Clone, Copy, Debug, PartialEq, Eq)]
pub enum LogStatus {
    PreAccepting,
    Accepting,
    Committed,
}

// Whether a number stands for a log status. It stays beside try_from: docs/ENTRIES.md names it.
pub fn is_status(number: u64) -> bool
    ensures { result ≡ is_status number }
{
    LogStatus::try_from(number).is_ok()
}

impl LogStatus {
    // The one that a number stands for; of a number that stands for none it is Committed. It stays beside try_from: `status_of`
    // says what it is of every number, and docs/ENTRIES.md names it.
    #[tactic(auto, unfolding(crate::specs::LogStatus::status_of))]
    pub fn of(number: u64) -> LogStatus
        ensures { result ≡ status_of number }
    {
        LogStatus::try_from(number).unwrap_or(LogStatus::Committed)
    }
}

// The one that a number stands for, refused where it stands for none.
impl TryFrom<u64> for LogStatus {
    type Error = Refusal;

    ghost try_from_gives = { λ number r. r ≡ status_from number };

    #[tactic(auto, unfolding(crate::specs::LogStatus::status_of))]
    fn try_from(number: u64) -> Result<LogStatus, Refusal> {
        match number {
            1 => Ok(LogStatus::PreAccepting),
            2 => Ok(LogStatus::Accepting),
            3 => Ok(LogStatus::Committed),
            _ => Err(Refusal::Unreadable),
        }
    }
}
