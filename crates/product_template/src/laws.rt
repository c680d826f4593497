//! Laws of product texts. The functions do nothing; their contracts are the laws.
ghost use Rattle.std.specs.Prelude.{◌≡◌, ℕ, map};
ghost use Rattle.std.specs.List.{All};
ghost use Rattle.hazard_types.specs.declared.codes.Class.{Class};
ghost use Rattle.office_types.specs.declared.request.Plan.{Plan};
ghost use Rattle.desk_settings.specs.declared.settings.Settings.{Settings};
ghost use Rattle.event_life.specs.Printed.{zone_line_of};
ghost use Rattle.office_types.specs.declared.request.Edition.{Edition};
ghost use Rattle.product_frame.specs.Frame.{FrameOf};
ghost use Rattle.product_frame.specs.LineRules.{ReadsBack};
ghost use Rattle.product_frame.specs.Splitting.{IsOneProduct};
ghost use Rattle.product_template.specs.Conditions.{CanBeText};
ghost use Rattle.product_frame.specs.ZoneLinesOf.{zone_lines_of};
ghost use Rattle.segmenter.specs.Said.{lines_in_text};
ghost use Rattle.product_template.specs.Text.{segment_of, frame_of, text_of};

/// Law: what the frame of a plan says of each zone is what the lines of the plan's segments say, by
/// segment, then zone, then line of the segment. Each has the office of the settings and the class,
/// and the values that a P-VTEC line and its H-VTEC line print.
#[tactic(auto, using(crate::proofs::Lines::lines_said))]
pub fn texts_say_the_lines()
    ensures { (settings : Settings) (class : Class) (plan : Plan) (t : ℕ) →
        zone_lines_of (frame_of settings class plan t)
        ≡ map (zone_line_of class settings.office) (lines_in_text plan.segments) }
{}

/// Law: the text of a plan is read as the plan's frame, and is one product, however long it is.
/// This holds if the arguments are such as `product_text` requires (as that zones have names,
/// unless in class `T`, and texts are printable), and the codes of the plan's segments read back as
/// they were written, which those of zones, minutes and letters of their types do.
pub fn texts_read_as_their_plans()
    ensures frame { (settings : Settings) (class : Class) (plan : Plan) (t : ℕ)
        (edition : Edition) →
        CanBeText settings class plan t →
        All ReadsBack (map (segment_of class settings.office t) plan.segments) →
        FrameOf (text_of settings class plan t edition) (frame_of settings class plan t) }
    ensures one { (settings : Settings) (class : Class) (plan : Plan) (t : ℕ) (edition : Edition) →
        CanBeText settings class plan t →
        All ReadsBack (map (segment_of class settings.office t) plan.segments) →
        IsOneProduct (text_of settings class plan t edition) }
{}
