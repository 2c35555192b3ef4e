// Verbs, and the routes with their parameters.
ghost use Rattle.std.specs.Prelude.{◌≡◌, ◌==◌, ◌≤◌, Option, IfSome, option_map};
ghost use Rattle.std.specs.List.{before_first};
ghost use Rattle.pg_messages.specs.Paths as paths;
ghost use Rattle.pg_paths.specs.Routes.{route_rows};
ghost use Rattle.pg_paths.specs.View.{verb_view, route_view};

use crate::routing::{Kind, kind_of};
use matchit::Router;

/// What a request wants done.
#[derive(Clone, Copy, Debug)]
pub enum Verb {
    /// Something is read.
    Get,
    /// Something is sent.
    Post,
}

impl Verb {
    /// The verb as a request's method and the field `Allow` have it.
    pub fn word(self) -> &'static str
        ensures { result.now ≡ paths.verb_word (verb_view self) }
    {
        match self {
            Verb::Get => "GET",
            Verb::Post => "POST",
        }
    }
}

/// What a request is about.
#[derive(Clone, Copy)]
pub enum Route<'a> {
    /// The game.
    Game,
    /// The caller's progress.
    Me,
    /// A level: its world's name as the path has it, and its number from 1 to 64.
    Level { world: &'a str, number: u16 },
    /// A script that is tried.
    Try,
    /// A script that is handed in.
    Submit,
    /// The steps of the caller's attempt of this number.
    Transcript { no: u32 },
    /// The proof of the caller's attempt of this number.
    Certificate { no: u32 },
}

impl Route<'_> {
    /// The one verb of the route.
    pub fn verb(&self) -> Verb
        ensures { verb_view result ≡ paths.verb_of (route_view self.now) }
    {
        match self {
            Route::Try => Verb::Post,
            Route::Submit => Verb::Post,
            _ => Verb::Get,
        }
    }
}

/// The path of a request's target: all of it up to the first question mark.
pub fn path_of(target: &str) -> &str
    ensures { result.now ≡ before_first (λ b. b == 63) target.now }
{
    match target.split_once('?') {
        Some((path, _)) => path,
        None => target,
    }
}

/// The route of a path, or `None` where it has none. Nothing in the path is decoded: a percent sign stands for itself.
pub fn route_of<'a>(router: &Router<Kind>, path: &'a str) -> Option<Route<'a>>
    requires { router.now ≡ route_rows }
    ensures { option_map route_view result ≡ paths.route_of path.now }
{
    match kind_of(router, path)? {
        Kind::Game => Some(Route::Game),
        Kind::Me => Some(Route::Me),
        Kind::Try => Some(Route::Try),
        Kind::Submit => Some(Route::Submit),
        Kind::Level => level_of(path.strip_prefix("/level/")?),
        Kind::Transcript => transcript_of(path.strip_prefix("/transcript/")?),
        Kind::Certificate => certificate_of(path.strip_prefix("/certificate/")?),
    }
}

// `world/n`
fn level_of(text: &str) -> Option<Route<'_>>
    ensures { option_map route_view result ≡ paths.level_path text.now }
{
    let (world, number) = text.split_once('/')?;
    if world.is_empty() {
        return None;
    }
    let number = number_to(64, number)?;
    Some(Route::Level {
        world,
        number: number as u16,
    })
}

// The number of a transcript. The result borrows nothing of the text.
fn transcript_of(text: &str) -> Option<Route<'_>>
    ensures { option_map route_view result ≡ option_map paths.transcript (paths.number_to 4_294_967_295 text.now) }
{
    let no = number_to(u32::MAX, text)?;
    Some(Route::Transcript { no })
}

// The number of a certificate.
fn certificate_of(text: &str) -> Option<Route<'_>>
    ensures { option_map route_view result ≡ option_map paths.certificate (paths.number_to 4_294_967_295 text.now) }
{
    let no = number_to(u32::MAX, text)?;
    Some(Route::Certificate { no })
}

// A number from 1 to `top` without leading zeros.
fn number_to(top: u32, text: &str) -> Option<u32>
    ensures value { result ≡ paths.number_to top text.now }
    ensures most { IfSome result (λ n. n ≤ top) }
{
    let first = *text.as_bytes().first()?;
    if first == b'0' || !first.is_ascii_digit() {
        return None;
    }
    let Ok(number) = text.parse::<u32>() else {
        return None;
    };
    if number <= top { Some(number) } else { None }
}
