// Which kind of route a path has, by the router of `matchit`.
ghost use Rattle.std.specs.Prelude.{◌≡◌, IfOk, OnOk};
ghost use Rattle.pg_paths.specs.Routes.{route_rows, with_route};
ghost use Rattle.pg_paths.specs.Plain.{kind_of_path};

use matchit::Router;
use std::alloc::{AllocError, Global};

/// What a route asks for, without its parameters.
#[derive(Clone, Copy, Debug)]
pub enum Kind {
    /// `/game`
    Game,
    /// `/me`
    Me,
    /// `/level/{world}/{n}`
    Level,
    /// `/transcript/{no}`
    Transcript,
    /// `/certificate/{no}`
    Certificate,
    /// `/try`
    Try,
    /// `/submit`
    Submit,
}

/// The router of all routes. Without the memory that it takes it is an `AllocError`.
pub fn routes(alloc: Global) -> Result<Router<Kind>, AllocError>
    ensures { IfOk result (λ router. router ≡ route_rows) }
{
    let mut router = Router::new(alloc);
    add(&mut router, "/game", Kind::Game)?;
    add(&mut router, "/me", Kind::Me)?;
    add(&mut router, "/level/{world}/{n}", Kind::Level)?;
    add(&mut router, "/transcript/{no}", Kind::Transcript)?;
    add(&mut router, "/certificate/{no}", Kind::Certificate)?;
    add(&mut router, "/try", Kind::Try)?;
    add(&mut router, "/submit", Kind::Submit)?;
    Ok(router)
}

// Adds a route. The routes of this crate clash with none, so that only memory can be wanting.
fn add(router: &mut Router<Kind>, text: &str, kind: Kind) -> Result<(), AllocError>
    ensures { OnOk result (router.new ≡ with_route text.now kind router.old) }
{
    match router.insert(text, kind) {
        Ok(()) => Ok(()),
        Err(_) => Err(AllocError),
    }
}

/// The kind of route that a path has, or `None` where it has none.
pub fn kind_of(router: &Router<Kind>, path: &str) -> Option<Kind>
    requires { router.now ≡ route_rows }
    ensures { result ≡ kind_of_path path.now }
{
    match router.at(path) {
        Ok(found) => Some(*found.value),
        Err(_) => None,
    }
}
