//! Plans products: turns a draft, or the correction of a sent product, into its VTEC lines,
//! segments and texts, or returns the first rule that it breaks. For callers that keep an office's
//! board and event numbers; begin with `plan` for a draft and `plan_correction` for a correction.
//! The functions with an empty body (`planned_lines_are_lawful` and the like) are lemmas for proofs
//! and do nothing.
#![tactic(auto)]

mod correcting;
mod fitting;
mod intent_rules;
mod laws;
mod line_laws;
mod lines;
mod placed;
mod planning;
mod puts;
mod rules;
mod sending;
mod spoken;
mod texts;
mod told_laws;
mod zone_rules;

pub use correcting::plan_correction;
pub use fitting::{MOST_INTENTS, is_valid_zone_list, may_be_planned, may_hold, wrong_kind};
pub use laws::{
    corrected_lines_are_distinct, corrections_keep_what_stands, new_lines_are_of_opened_events,
    nothing_stands_at_first, opened_events_are_drawn_in_order, opened_events_are_numbered_on,
    opened_events_stand_in_order, planned_lines_are_distinct, planned_lines_are_lawful,
    planned_lines_are_those_planned, planned_lines_open_where_no_row_stands,
    plans_keep_what_stands, standing_conditions_persist,
};
pub use line_laws::{
    expiring_lines_end_at_a_minute, flood_lines_have_values, flood_values_are_those_given,
    lines_are_of_the_desks_hazards, lines_have_four_digits, lines_stand_in_the_drafts_zones,
};
pub use lines::{is_near_end, line_on};
pub use planning::plan;
pub use puts::{carried_line, unless_ended};
pub use texts::no_texts;
pub use told_laws::{
    new_lines_draw_the_numbers, rows_tell_the_numbers, texts_say_what_their_lines_say,
};
