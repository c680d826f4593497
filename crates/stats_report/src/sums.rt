//! Sums, and what a line adds to them. A sum has 128 bits, since an input has fewer than 2^32
//! products, each of fewer than 2^64 lines of fewer than 2^26 minutes. So no sum overflows; the
//! additions are checked all the same.
ghost use Rattle.std.specs.Prelude.{◌≡◌, ◌≤◌, ◌+◌, ◌^◌, IfOk, OnErr};
ghost use Rattle.stats_report.specs.Spells.{gained, no_sums};

use hazard_types::Oom;

/// The count of openings, the sum of their leads and the sum of minutes in effect. A lead is the
/// minutes from the issue of an opening to its begin.
#[derive(Clone, Copy)]
pub struct Sums {
    pub openings: u128,
    pub lead: u128,
    pub minutes: u128,
}

/// What a line adds to sums: an opening and its lead, or none, and the minutes in effect of its row
/// from the product on. `gone` is the minutes that the row before had from there on.
#[derive(Clone, Copy)]
pub struct Gain {
    pub openings: u128,
    pub lead: u128,
    pub minutes: u128,
    pub gone: u128,
}

/// Returns sums of zero.
pub fn no_sums() -> Sums
    ensures { result ≡ no_sums }
{
    Sums {
        openings: 0,
        lead: 0,
        minutes: 0,
    }
}

/// Returns `sum + amount`.
///
/// # Errors
///
/// `Oom` if the sum overflows, which no input causes.
pub fn checked_sum(sum: u128, amount: u128) -> Result<u128, Oom>
    ensures ok { IfOk result (λ n. n ≡ sum + amount) }
    ensures err { OnErr result (2 ^ 128 ≤ sum + amount) }
{
    match sum.checked_add(amount) {
        Some(more) => Ok(more),
        None => Err(Oom),
    }
}

/// Returns the sums with the openings, the lead time and the minutes of the gain added, and its
/// minutes `gone` taken off the minutes, which do not fall below 0.
///
/// # Errors
///
/// `Oom` if a sum overflows, which no input causes.
///
/// Source: docs/DECISIONS.md, "Statistics".
pub fn gained(sums: &Sums, gain: &Gain) -> Result<Sums, Oom>
    ensures { IfOk result (λ s. s ≡ gained sums.now gain.now) }
{
    let minutes = checked_sum(sums.minutes, gain.minutes)?.saturating_sub(gain.gone);
    if gain.openings == 0 && gain.lead == 0 {
        return Ok(Sums {
            openings: sums.openings,
            lead: sums.lead,
            minutes,
        });
    }
    Ok(Sums {
        openings: checked_sum(sums.openings, gain.openings)?,
        lead: checked_sum(sums.lead, gain.lead)?,
        minutes,
    })
}
