// A small service, and what serving an input by it comes to.
ghost use Rattle.std.specs.Prelude.{◌<◌, ⊤};

use pg_base::MemoryLink;
use pg_serve::serve_link;
use pg_wire::{BodyKind, Reply, Request, Service};
use std::alloc::{AllocError, Global};

/// It answers each request with its number, its pass and its body.
#[derive(Drop)]
struct Echo {
    asked: u32,
}

impl Service for Echo {
    ghost answers = { λ old ask said new. ⊤ };

    fn answer(&mut self, alloc: Global, request: &Request<'_>) -> Reply {
        self.asked = self.asked.saturating_add(1);
        let number = self.asked;
        let pass = request.pass.unwrap_or("-");
        let body = str::from_utf8(request.body).unwrap_or("?");
        match format!(in alloc; "{number} {pass} {body}") {
            Ok(body) => Reply {
                status: 200,
                kind: BodyKind::Json,
                body,
            },
            Err(_) => Reply::memory(alloc),
        }
    }
}

/// How it ended, how many requests the service got, and what was written. A read gives at most `cut` bytes; the calls of the link of the
/// numbers in `failing` fail.
pub fn served(
    alloc: Global,
    input: &[u8],
    cut: usize,
    failing: Vec<u64>,
) -> Result<String, AllocError>
    requires { 0 < cut }
{
    let mut echo = Echo { asked: 0 };
    let mut link = MemoryLink::new(alloc, input.to_vec(alloc)?, cut, failing);
    let end = serve_link(alloc, &mut echo, &mut link);
    let asked = echo.asked;
    let written = str::from_utf8(link.written()).unwrap_or("?");
    format!(in alloc; "{end:?} {asked}\n{written}")
}
