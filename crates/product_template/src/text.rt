//! The text of a product.
ghost use Rattle.std.specs.Prelude.{◌≡◌, ◌≤◌, ◌<◌, length, IfOk, Err};
ghost use Rattle.hazard_types.specs.declared.or.Or.TheVariants.{No};
ghost use Rattle.office_types.specs.declared.refusal.Refusal.{Refusal as Reason};
ghost use Rattle.office_types.specs.declared.refusal.Refusal.TheVariants.{TooLong};
ghost use Rattle.product_frame.specs.Frame.{FrameOf};
ghost use Rattle.product_frame.specs.Splitting.{IsOneProduct};
ghost use Rattle.std.specs.List.{All};
ghost use Rattle.product_template.specs.Conditions.{ArePrintable, CanBeText};
ghost use Rattle.product_template.specs.Text.{frame_of, text_of, text_with};

use crate::bodies::bodies_of;
use crate::frame::{block_of, frame_of};
use crate::lengths::{bullet_lengths, checked_sum, length_in_segments, may_be_long};
use desk_settings::Settings;
use hazard_types::{Class, Minute, Oom, Or, Text};
use office_types::{Edition, EventTexts, Plan, Refusal};
use product_frame::frame_text;
use std::alloc::Global;

/// The most bytes of a product text.
const MOST: usize = 65_536;

/// Returns the text of a plan's product issued at minute `t`, however long, with the forecasters'
/// texts `texts` in place of the plan's own. In class `T` zones have no names, and in edition One
/// lines have no WHEN bullet.
fn whole_text(
    alloc: Global,
    settings: &Settings,
    class: Class,
    plan: &Plan,
    texts: &[EventTexts],
    t: Minute,
    edition: Edition,
) -> Result<Text, Oom>
    requires can { CanBeText settings.now class plan.now t }
    requires printable { All ArePrintable texts.now }
    ensures value { IfOk result
        (λ text. text ≡ text_with settings.now class plan.now texts.now t edition) }
    ensures frame { IfOk result (λ text. FrameOf text (frame_of settings.now class plan.now t)) }
    ensures one { IfOk result IsOneProduct }
{
    let frame = frame_of(alloc, settings, class, plan, t)?;
    let block = block_of(alloc, settings, plan, t)?;
    let bodies = bodies_of(
        alloc,
        settings,
        class,
        texts,
        t,
        edition,
        plan.segments.as_slice(),
    )?;
    frame_text(alloc, &frame, &block, &bodies)
}

/// Returns the length in bytes of the text of a plan's product issued at minute `t`, however long.
/// The texts of an event are laid out once, however many lines the event has. In class `T` zones
/// have no names, and in edition One lines have no WHEN bullet.
fn text_length(
    alloc: Global,
    settings: &Settings,
    class: Class,
    plan: &Plan,
    t: Minute,
    edition: Edition,
) -> Result<usize, Oom>
    requires { CanBeText settings.now class plan.now t }
    ensures { IfOk result (λ n. n ≡ length (text_of settings.now class plan.now t edition)) }
{
    let told = bullet_lengths(alloc, plan.texts.as_slice())?;
    let said = length_in_segments(told.as_slice(), plan.segments.as_slice())?;
    let bare = whole_text(alloc, settings, class, plan, &[], t, edition)?;
    checked_sum(bare.len(), said)
}

/// Returns the text of a plan as a product that is issued at minute `t`, which is at most
/// 52,000,000: lines that each end with LF, at most 65,536 bytes in all. `class` is the P-VTEC
/// product class: in class `T` zones have no names, in others the settings must have a name for
/// each zone; in edition One lines have no WHEN bullet. The forecasters' texts must be printable
/// ASCII, each segment must have zones, each once and in order, and hazards that the desk issues,
/// and the letter of a correction must be a capital.
///
/// # Errors
///
/// `Or::No` with TooLong and the length in bytes if the text has more than 65,536 bytes, and
/// otherwise out of memory.
///
/// Source: NWS Instruction 10-1701, segmented products; docs/DECISIONS.md and docs/DEFINITIONS.md,
/// "Product texts".
#[tactic(auto, unfolding(crate::specs::Text::text_of))]
pub fn product_text(
    alloc: Global,
    settings: &Settings,
    class: Class,
    plan: &Plan,
    t: Minute,
    edition: Edition,
) -> Result<Text, Or<Refusal>>
    requires { CanBeText settings.now class plan.now t }
    // The settings, the class, the plan, the minute and the edition determine the text.
    ensures value { IfOk result (λ text. text ≡ text_of settings.now class plan.now t edition) }
    ensures short { IfOk result (λ text. length text ≤ 65536) }
    // The refusal names the length of the text, which is above the limit.
    ensures refused { (r : Reason) →
        result ≡ Err (No r) →
        (r ≡ TooLong (length (text_of settings.now class plan.now t edition)))
        × (65536 < length (text_of settings.now class plan.now t edition)) }
    // A reader finds the plan's segments and the minute in it.
    ensures frame { IfOk result (λ text. FrameOf text (frame_of settings.now class plan.now t)) }
    // Its one heading line is its first line, and each line has its end.
    ensures one_product { IfOk result IsOneProduct }
{
    if may_be_long(plan, MOST) {
        let bytes = text_length(alloc, settings, class, plan, t, edition)?;
        if bytes > MOST {
            return Err(Or::No(Refusal::TooLong { bytes }));
        }
    }
    let texts = plan.texts.as_slice();
    let text = whole_text(alloc, settings, class, plan, texts, t, edition)?;
    if text.len() > MOST {
        return Err(Or::No(Refusal::TooLong { bytes: text.len() }));
    }
    Ok(text)
}
