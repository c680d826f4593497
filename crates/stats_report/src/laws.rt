//! Laws of the statistics. The functions do nothing; their contracts are the laws.
ghost use Rattle.std.specs.Prelude.{◌≡◌, ◌≤◌, ◌↔◌, ℕ, List, length, take, true};
ghost use Rattle.event_life.specs.Products.{Product, rows_of};
ghost use Rattle.stats_report.specs.Adding.{sum_where};
ghost use Rattle.stats_report.specs.Minutes.{greatest, governing};
ghost use Rattle.stats_report.specs.Report.{hazards_in, zones_in, hazard_minutes, zone_minutes, total_minutes};

/// The products that govern a minute are the longest run of first products of the list of which
/// none is issued after the minute. So the first `k` products are among them if and only if the
/// greatest issue minute of these `k` is at most the minute.
#[tactic(auto, using(crate::proofs::Governing::governing_front, crate::proofs::Governing::governing_greatest))]
pub fn the_greatest_issue_minute_governs()
    ensures front { (m : ℕ) (products : List Product)
        → governing m products ≡ take (length (governing m products)) products }
    ensures greatest { (m k : ℕ) (products : List Product) → k ≤ length products
        → (greatest (take k products) ≤ m) ↔ (k ≤ length (governing m products)) }
{}

/// The total of the minutes in effect before a stamp, over all rows that a list of products leaves,
/// is the sum of those of each hazard that has rows. It is also the sum of those of each zone that
/// has rows.
#[tactic(auto, using(crate::proofs::Sharing::hazards_shared, crate::proofs::Sharing::zones_shared))]
pub fn minutes_add_up()
    ensures hazards { (stamp : ℕ) (products : List Product) →
        sum_where (λ h. true)
        (λ h. hazard_minutes stamp h products) (hazards_in (rows_of products))
        ≡ total_minutes stamp products }
    ensures zones { (stamp : ℕ) (products : List Product) →
        sum_where (λ z. true)
        (λ z. zone_minutes stamp z products) (zones_in (rows_of products))
        ≡ total_minutes stamp products }
{}
