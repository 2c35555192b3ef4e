// Names made fresh by a number.
ghost use Rattle.std.specs.Prelude.{◌≡◌, ◌≢◌, ◌++◌, [], ◌+◌, ◌<◌, ◌≤◌, ◌^◌, ◌||◌, ℕ, false, length, slice_index_or, IfOk, IfSome, IsTrue, string_bytes};
ghost use Rattle.std.specs.List.{list_any};
ghost use Rattle.std.specs.Str.{bytes_eq};
ghost use Rattle.pg_arith.specs.View.{declarations};
ghost use Rattle.pg_spelling.specs.Fresh.{is_taken, stem, numbered, free_number, fresh, IsFresh};
ghost use Rattle.pg_spelling.specs.Named.{live, declared_names};
ghost use Rattle.pg_syntax.specs.Places.{taken_names};

use pg_arith::Signature;
use pg_base::is_reserved;
use pg_terms::Name;
use std::alloc::{AllocError, Global};

/// A name made fresh against these names, the names of functions, constants and predicates, and the
/// reserved words: itself where it isn't taken, else without its trailing digits and with the least
/// number from 1 on that makes it free (docs/LOGIC.md, "Printing"). It fails only for want of memory.
pub fn fresh_name(
    alloc: Global,
    name: &Name,
    taken: &[Name],
    sig: &Signature,
) -> Result<Name, AllocError>
    ensures is { IfOk result (λ made. made ≡ fresh (taken.now ++ declared_names (declarations sig.now)) name.now) }
    ensures free { IfOk result (λ made. IsFresh (taken.now ++ declared_names (declarations sig.now)) name.now made) }
{
    let taken = Taken {
        binders: taken,
        vars: &[],
        sig,
    };
    taken.fresh(alloc, name)
}

/// The names that a new one may not be, besides the reserved words.
#[derive(Clone, Copy)]
pub struct Taken<'a> {
    /// Names of binders, or any others.
    pub binders: &'a [Name],
    /// Names of variables, where they live.
    pub vars: &'a [Option<Name>],
    /// What is declared: the names of its functions, constants and predicates.
    pub sig: &'a Signature,
}

impl Taken<'_> {
    /// A name made fresh: it stays where it isn't taken.
    pub fn fresh(&self, alloc: Global, name: &Name) -> Result<Name, AllocError>
        ensures is { IfOk result (λ made. made ≡ fresh (taken_names self.now) name.now) }
        ensures free { IfOk result (λ made. IsFresh (taken_names self.now) name.now made) }
    {
        if !self.has(name.as_str()) {
            return name.copied(alloc);
        }
        let made = self.first_free(alloc, stem(name.as_str()))?;
        Name::new(alloc, made.as_str())
    }

    /// Whether a text is one of the names, or a reserved word.
    #[tactic(auto, using(crate::proofs::Lists::taken_parts))]
    fn has(&self, text: &str) -> bool
        ensures { result ≡ is_taken (taken_names self.now) text.now }
    {
        is_among(self.binders, text)
            || is_live(self.vars, text)
            || is_declared(self.sig, text)
            || is_reserved(text)
    }

    /// A stem with the least number from 1 on that makes it free.
    fn first_free(&self, alloc: Global, stem: &str) -> Result<String, AllocError>
        ensures room { length (taken_names self.now) + 1 < 2 ^ 64 }
        ensures some { IfOk result (λ made. string_bytes made ≢ []) }
        ensures made { IfOk result (λ made. string_bytes made ≡ numbered stem.now (free_number (taken_names self.now) stem.now (length (taken_names self.now)) 1)) }
    {
        let room = self.count();
        let used = self.used_numbers(alloc, stem, room)?;
        for before in 0..room {
            if used[before] {
                continue;
            }
            let made = numbered(alloc, stem, before + 1)?;
            if !self.has(made.as_str()) {
                return Ok(made);
            }
        }
        numbered(alloc, stem, room + 1)
    }

    /// How many names there are.
    fn count(&self) -> usize
        ensures count { result ≡ length (taken_names self.now) }
        ensures bound { result + 1 < 2 ^ 64 }
    {
        self.binders.len()
            + live_count(self.vars)
            + self.sig.function_count() as usize
            + self.sig.predicate_count() as usize
    }

    /// For each number from 1 to `room`, at the place before it: whether it is known that the stem with it is taken.
    fn used_numbers(&self, alloc: Global, stem: &str, room: usize) -> Result<Vec<bool>, AllocError>
        ensures length { IfOk result (λ used. length used.items ≡ room) }
        ensures taken { IfOk result (λ used. (k : ℕ) → IsTrue (slice_index_or used.items k false) → IsTrue (is_taken (taken_names self.now) (numbered stem.now (k + 1)))) }
    {
        let mut used = vec![in alloc; false; room]?;
        self.mark_used(&mut used, stem);
        Ok(used)
    }

    /// Sets the flags of the numbers behind the stem in the names of binders and variables: one pass
    /// over the names, which tells of most numbers that they are taken.
    #[tactic(auto, using(crate::proofs::Lists::taken_parts))]
    fn mark_used(&self, used: &mut [bool], stem: &str)
        ensures length { length used.new ≡ length used.old }
        ensures taken { (k : ℕ) → IsTrue (slice_index_or used.new k false) → IsTrue (slice_index_or used.old k false || is_taken (taken_names self.now) (numbered stem.now (k + 1))) }
    {
        mark_names(used, stem, self.binders);
        mark_live(used, stem, self.vars);
    }
}

/// Whether a text is one of these names.
fn is_among(names: &[Name], text: &str) -> bool
    ensures { result ≡ list_any (bytes_eq text.now) names.now }
{
    for name in names {
        if text == name.as_str() {
            return true;
        }
    }
    false
}

/// Whether a text is the name of a variable that lives.
fn is_live(vars: &[Option<Name>], text: &str) -> bool
    ensures { result ≡ list_any (bytes_eq text.now) (live vars.now) }
{
    for var in vars {
        if let Some(name) = var {
            if text == name.as_str() {
                return true;
            }
        }
    }
    false
}

/// Whether a text is the name of a function, a constant or a predicate.
fn is_declared(sig: &Signature, text: &str) -> bool
    ensures { result ≡ list_any (bytes_eq text.now) (declared_names (declarations sig.now)) }
{
    sig.function_named(text).is_some() || sig.predicate_named(text).is_some()
}

/// A name without the ASCII digits at its end.
fn stem(name: &str) -> &str
    ensures { result.now ≡ stem name.now }
{
    let bytes = name.as_bytes();
    let mut end = bytes.len();
    while end > 0 && bytes[end - 1].is_ascii_digit() {
        end -= 1;
    }
    name.split_at(end).0
}

/// How many variables live.
fn live_count(vars: &[Option<Name>]) -> usize
    ensures count { result ≡ length (live vars.now) }
    ensures bound { result ≤ length vars.now }
{
    let mut count = 0;
    for var in vars {
        if var.is_some() {
            count += 1;
        }
    }
    count
}

/// Sets the flags of the numbers behind the stem in these names.
fn mark_names(used: &mut [bool], stem: &str, names: &[Name])
    ensures length { length used.new ≡ length used.old }
    ensures named { (k : ℕ) → IsTrue (slice_index_or used.new k false) → IsTrue (slice_index_or used.old k false || list_any (bytes_eq (numbered stem.now (k + 1))) names.now) }
{
    for name in names {
        mark_number(used, stem, name.as_str());
    }
}

/// Sets the flags of the numbers behind the stem in the names of the variables that live.
fn mark_live(used: &mut [bool], stem: &str, vars: &[Option<Name>])
    ensures length { length used.new ≡ length used.old }
    ensures named { (k : ℕ) → IsTrue (slice_index_or used.new k false) → IsTrue (slice_index_or used.old k false || list_any (bytes_eq (numbered stem.now (k + 1))) (live vars.now)) }
{
    for var in vars {
        if let Some(name) = var {
            mark_number(used, stem, name.as_str());
        }
    }
}

/// Sets the flag of the number behind the stem, where the name is the stem with a number. The flag of
/// number k + 1 is at place k.
fn mark_number(used: &mut [bool], stem: &str, name: &str)
    ensures length { length used.new ≡ length used.old }
    ensures named { (k : ℕ) → IsTrue (slice_index_or used.new k false) → IsTrue (slice_index_or used.old k false || bytes_eq (numbered stem.now (k + 1)) name.now) }
{
    match number_behind(stem, name) {
        Some(number) if number > 0 && number <= used.len() => used[number - 1] = true,
        _ => {}
    }
}

/// The number behind a stem, where the name is the stem with a number. None else, and for a number of
/// more than 64 bits.
fn number_behind(stem: &str, name: &str) -> Option<usize>
    ensures { IfSome result (λ n. name.now ≡ numbered stem.now n) }
{
    let digits = name.strip_prefix(stem)?;
    match digits.as_bytes() {
        [first, ..] if *first > b'0' => digits.parse::<usize>().ok(),
        _ => None,
    }
}

/// A stem with a number behind it.
fn numbered(alloc: Global, stem: &str, number: usize) -> Result<String, AllocError>
    ensures made { IfOk result (λ made. string_bytes made ≡ numbered stem.now number) }
    ensures some { IfOk result (λ made. string_bytes made ≢ []) }
{
    format!(in alloc; "{stem}{number}")
}
