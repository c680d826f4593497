//! The life of an event in a zone: which lines are lawful, and what they leave.
//!
//! For crates that judge the lines of products, read or planned. One begins with `line_of` and
//! `judge`; `life_step` is the table of lawful steps for one event in one zone.
#![tactic(auto)]

mod judging;
mod laws;
mod life;
mod openings;
mod periods;
mod putting;
mod rows;
mod step_laws;

pub use judging::{breach_in, has_higher, judge, line_of};
pub use laws::{
    events_open_once, first_line_decides, gapless_without_gaps, higher_rows_are_lawful_rows,
    judged_lines_leave_the_rows_after, lawful_lines_read_back, lawful_lives_are_whole,
    lives_are_spells, opened_events_are_of_the_lines, order_of_lines_is_free, rows_of_are_in_order,
    rows_stay_in_order,
};
pub use life::{Around, Breach, Life, life_step};
pub use openings::{Gap, events_opened_by, gaps};
pub use periods::{ends_after, is_live, is_not_long_past, keeps_open, overlaps, same_at, same_end};
pub use putting::{
    end_upgraded, is_routine, is_upgrade, leaves_row, may_be_higher, put, row_after, row_of, shown,
};
pub use rows::{
    around, event_of, has_opened_period, has_period, has_rows, is_number_held, is_open,
    later_event, latest_open_event, life_at, opened_period, row_at,
};
pub use step_laws::{
    can_comes_before_the_last_half_hour, con_and_cor_keep_the_period, ended_lives_are_opened_anew,
    exa_joins_a_period_of_the_event, exb_joins_at_another_period,
    exp_comes_within_half_an_hour_of_the_end, ext_changes_the_period, lawful_lines_leave,
    new_opens_an_event, steps_are_never_twice, upg_comes_before_the_end,
};
