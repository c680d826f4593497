//! The routes, over the router of the crate `matchit`.
ghost use Rattle.std.specs.Prelude.{◌≡◌, IfOk};
ghost use Rattle.warn_http.specs.Routes.{desk_routes, number_behind, aim_at, method_of};

use crate::numbers::{Number, number_of};
use matchit::{InsertError, Router};
use office_types::Query;
use std::alloc::Global;

/// A route of the table.
#[derive(Clone, Copy, Debug, PartialEq, Eq)]
pub enum Place {
    Requests,
    Board,
    Product,
    After,
    Draft,
    Preview,
}

/// What a path asks for: to post a request, or to look at something.
#[derive(Clone, Copy, Debug, PartialEq, Eq)]
pub enum Aim {
    Post,
    Look(Query),
}

/// Returns the table of the desk's routes (docs/HTTP.md, "Routes").
///
/// # Errors
///
/// The router's error, which `Routes::new` returns as out of memory.
pub fn routes(alloc: Global) -> Result<Router<Place>, InsertError>
    ensures table { IfOk result (λ router. router ≡ desk_routes) }
{
    let mut router = Router::new(alloc);
    router.insert("/requests", Place::Requests)?;
    router.insert("/board", Place::Board)?;
    router.insert("/products/{n}", Place::Product)?;
    router.insert("/products/after/{n}", Place::After)?;
    router.insert("/drafts/{id}", Place::Draft)?;
    router.insert("/preview/{id}", Place::Preview)?;
    Ok(router)
}

/// Returns the decimal number below 2^32 that all bytes of `path` after `prefix` spell. It is
/// `NoNumber` if `path` does not start with `prefix` or they are not one or more digits, and
/// `TooLarge` from 2^32 on.
#[tactic(auto, unfolding(crate::specs::Routes::number_behind))]
fn number_behind(path: &[u8], prefix: &[u8]) -> Number
    ensures { result ≡ number_behind prefix.now path.now }
{
    match path.strip_prefix(prefix) {
        Some(digits) => number_of(u32::MAX, digits),
        None => Number::NoNumber,
    }
}

/// Returns the query for product N if `path` is `/products/N` with a decimal number N below 2^32,
/// or `None` for any other path.
fn product_at(path: &[u8]) -> Option<Aim>
    ensures { result ≡ aim_at Place.Product path.now }
{
    match number_behind(path, b"/products/") {
        Number::Is(number) => Some(Aim::Look(Query::Product(number))),
        _ => None,
    }
}

/// Returns the query for the product after number N if `path` is `/products/after/N` with a decimal
/// number N below 2^32, or `None` for any other path.
fn after_at(path: &[u8]) -> Option<Aim>
    ensures { result ≡ aim_at Place.After path.now }
{
    match number_behind(path, b"/products/after/") {
        Number::Is(number) => Some(Aim::Look(Query::After(number))),
        _ => None,
    }
}

/// Returns the query for draft N if `path` is `/drafts/N` with a decimal number N below 2^32, or
/// `None` for any other path.
fn draft_at(path: &[u8]) -> Option<Aim>
    ensures { result ≡ aim_at Place.Draft path.now }
{
    match number_behind(path, b"/drafts/") {
        Number::Is(number) => Some(Aim::Look(Query::Draft(number))),
        _ => None,
    }
}

/// Returns the query for the preview of draft N if `path` is `/preview/N` with a decimal number N
/// below 2^32, or `None` for any other path.
fn preview_at(path: &[u8]) -> Option<Aim>
    ensures { result ≡ aim_at Place.Preview path.now }
{
    match number_behind(path, b"/preview/") {
        Number::Is(number) => Some(Aim::Look(Query::Preview(number))),
        _ => None,
    }
}

/// Returns what `path` asks for, where `place` is the route that it has in the table. It is `None`
/// if the route has a number and the path does not end in a decimal number below 2^32.
pub fn aim_at(place: Place, path: &[u8]) -> Option<Aim>
    ensures { result ≡ aim_at place path.now }
{
    match place {
        Place::Requests => Some(Aim::Post),
        Place::Board => Some(Aim::Look(Query::Board)),
        Place::Product => product_at(path),
        Place::After => after_at(path),
        Place::Draft => draft_at(path),
        Place::Preview => preview_at(path),
    }
}

/// Returns the HTTP method that a call for `aim` must have: `POST` to post a request, `GET` to look
/// at something.
pub fn method_of(aim: Aim) -> &'static [u8]
    ensures { result.now ≡ method_of aim }
{
    match aim {
        Aim::Post => b"POST",
        Aim::Look(_) => b"GET",
    }
}
