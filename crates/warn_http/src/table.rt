//! The routes of the desk, made once.
ghost use Rattle.std.specs.Prelude.{◌≡◌};
ghost use Rattle.warn_http.specs.Routes.{desk_routes, aim_of};

use crate::routes::{Aim, Place, aim_at, routes};
use hazard_types::Oom;
use matchit::Router;
use std::alloc::Global;

/// The routes by which calls are read. They are made once for all calls of a service.
#[derive(Drop)]
pub struct Routes {
    router: Router<Place>,
    ghost is_table: { router ≡ desk_routes },
}

impl Routes {
    /// Returns the desk's routes.
    ///
    /// # Errors
    ///
    /// Out of memory.
    pub fn new(alloc: Global) -> Result<Self, Oom> {
        match routes(alloc) {
            Ok(router) => Ok(Routes { router }),
            Err(_error) => Err(Oom),
        }
    }

    /// Returns what the path of a call asks for, or `None` if it has no route, or has one with a
    /// number and does not end in a decimal number below 2^32. The whole request target is taken as
    /// the path.
    #[tactic(auto, unfolding(crate::specs::Routes::aim_of))]
    pub fn aim_of(&self, path: &str) -> Option<Aim>
        ensures { result ≡ aim_of path.now }
    {
        match self.router.at(path) {
            Ok(found) => aim_at(*found.value, path.as_bytes()),
            Err(_) => None,
        }
    }
}
