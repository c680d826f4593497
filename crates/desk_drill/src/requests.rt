//! The requests of a drill (docs/DEFINITIONS.md, "desk_drill").
ghost use Rattle.std.specs.Prelude.{◌≡◌, ◌≤◌, ◌<◌, ◌+◌, ◌%◌, IfOk, IsTrue};
ghost use Rattle.std.specs.List.{All};
ghost use Rattle.office_types.specs.Desks.{is_desk_name};
ghost use Rattle.hazard_types.specs.Places.{IsPlace, are_letters};
ghost use Rattle.request_json.specs.Formed.{IsHazard, IsIssuePart};
ghost use Rattle.desk_drill.specs.Draws.{next_draw};
ghost use Rattle.desk_drill.specs.Keeping.{issued_by};
ghost use Rattle.desk_drill.specs.Requests.{desk_at, hazard_at, letters_at, minute_at, part_of, request_at, zone_at, zones_from};

use crate::draws::Draws;
use action_planner::no_texts;
use hazard_types::{Begin, End, Hazard, Kind, List, Minute, Oom, Phen, Sig, Zone};
use office_types::{Desk, PutPart, Target};
use std::alloc::Global;

/// The minute 180101T0000Z, since 2000-01-01T00:00Z UTC.
const FIRST_MINUTE: u32 = 9_468_000;

/// The minutes for which an issue is in effect.
const LASTING: u32 = 240;

/// The number of zones of an issue.
const ZONES: u32 = 6;

/// A request of a drill: an issue of one of the four desks, which is named by its index from 0, at
/// a minute.
#[derive(Debug, Drop)]
pub struct DrillRequest {
    pub desk: u32,
    pub part: PutPart,
    pub minute: Minute,
}

/// Returns the letters of the state of zone `i`, counted from 0: `AA` for the first 999 zones, `AB`
/// for the next 999, then `AC`.
fn letters_at(i: u32) -> [u8; 2]
    ensures value { result ≡ letters_at i }
    ensures letters { IsTrue (are_letters result) }
{
    if i < 999 {
        *b"AA"
    } else if i < 1998 {
        *b"AB"
    } else {
        *b"AC"
    }
}

/// Returns zone `i` of the drill, counted from 0: a forecast zone (Z) with the number i mod 999 +
/// 1.
fn zone_at(i: u32) -> Zone
    ensures { result ≡ zone_at i }
{
    match Zone::new(letters_at(i), Kind::Z, (i % 999 + 1) as u16) {
        Some(zone) => zone,
        None => unreachable!(),
    }
}

/// Returns `count` zones of the drill in order, from zone `i`, counted from 0, on.
///
/// # Errors
///
/// Out of memory.
#[tactic(auto, using(crate::proofs::Zones::zones_more, crate::proofs::Zones::no_zones, crate::proofs::Zones::are_places))]
pub fn zones_from(alloc: Global, i: u32, count: u32) -> Result<List<Zone>, Oom>
    requires { i + count ≤ 4294967295 }
    ensures value { IfOk result (λ zones. zones ≡ zones_from i count) }
    ensures places { IfOk result (All IsPlace) }
{
    let mut zones = List::new(alloc);
    for place in 0..count {
        zones.push(zone_at(i + place))?;
    }
    Ok(zones)
}

/// Returns the name of desk `place`, counted from 0: `D1`, `D2`, `D3`, and `D4` for 3 and above.
fn name_at(place: u32) -> [u8; 2]
    ensures value { result ≡ desk_at place }
    ensures name { IsTrue (is_desk_name result) }
{
    if place == 0 {
        *b"D1"
    } else if place == 1 {
        *b"D2"
    } else if place == 2 {
        *b"D3"
    } else {
        *b"D4"
    }
}

/// Returns desk `place` of the drill's four, `D1` to `D4`, counted from 0. A place above 3 is that
/// of `D4`.
pub fn desk_at(place: u32) -> Desk
    ensures { result ≡ desk_at place }
{
    match Desk::new(&name_at(place)) {
        Some(desk) => desk,
        None => unreachable!(),
    }
}

/// Returns the hazard of a phenomenon, two capital letters, and a significance.
fn hazard(letters: [u8; 2], sig: Sig) -> Hazard
    requires { IsTrue (are_letters letters) }
    ensures value { result ≡ record { phen = letters; sig = sig } }
    ensures form { IsHazard result }
{
    match Phen::new(letters) {
        Some(phen) => Hazard { phen, sig },
        None => unreachable!(),
    }
}

/// Returns hazard `place` of the drill's five, counted from 0: WS.W, WW.Y, HW.W, WI.Y, and FG.Y for
/// 4 and above.
fn hazard_at(place: u64) -> Hazard
    ensures value { result ≡ hazard_at place }
    ensures form { IsHazard result }
{
    if place == 0 {
        hazard(*b"WS", Sig::W)
    } else if place == 1 {
        hazard(*b"WW", Sig::Y)
    } else if place == 2 {
        hazard(*b"HW", Sig::W)
    } else if place == 3 {
        hazard(*b"WI", Sig::Y)
    } else {
        hazard(*b"FG", Sig::Y)
    }
}

/// Returns the minute `count` minutes after 2018-01-01T00:00Z, the minute of the drill's first
/// request.
fn minute_after_start(count: u32) -> Minute
    requires { count ≤ 50000 }
    ensures { result ≡ 9468000 + count }
{
    match Minute::new(FIRST_MINUTE + count) {
        Some(minute) => minute,
        None => unreachable!(),
    }
}

/// Returns the issue that request `i`, counted from 0, asks for: hazard `a` mod 5 of the drill's
/// five, in six zones from zone `b` mod 1995 on. It begins now and ends 240 minutes after the
/// minute of the request, which is 5 `i` minutes after the drill's first. `a` and `b` are the two
/// random numbers of the request.
fn part_of(alloc: Global, a: u64, b: u64, i: u32) -> Result<PutPart, Oom>
    requires { i ≤ 8192 }
    ensures value { IfOk result (λ part. part ≡ part_of a b (minute_at i)) }
    ensures form { IfOk result IsIssuePart }
{
    let zones = zones_from(alloc, (b % 1995) as u32, ZONES)?;
    Ok(PutPart {
        target: Target::Fresh(hazard_at(a % 5)),
        zones,
        begin: Begin::Now,
        end: End::At(minute_after_start(5 * i + LASTING)),
        flood: None,
        texts: no_texts(alloc),
    })
}

/// Returns request `i`, counted from 0, made with the next two random numbers of `draws`. It is of
/// desk `i` mod 4, and its minute is 5 `i` minutes after 2018-01-01T00:00Z.
///
/// # Errors
///
/// Out of memory.
pub fn request_at(alloc: Global, i: u32, draws: &mut Draws) -> Result<DrillRequest, Oom>
    requires { i ≤ 8192 }
    ensures state { draws.new.state ≡ next_draw (next_draw draws.old.state) }
    ensures value { IfOk result (λ r. issued_by r ≡ request_at i draws.old.state) }
    ensures place { IfOk result (λ r. r.desk < 4) }
    ensures form { IfOk result (λ r. IsIssuePart r.part) }
{
    let a = draws.draw();
    let b = draws.draw();
    let part = part_of(alloc, a, b, i)?;
    Ok(DrillRequest {
        desk: i % 4,
        part,
        minute: minute_after_start(5 * i),
    })
}
