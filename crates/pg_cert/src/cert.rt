ghost use Rattle.std.specs.Prelude.{◌≡◌, IfOk, string_bytes};
ghost use Rattle.pg_kernel.specs.View.{proof};
ghost use Rattle.pg_cert.specs.Certificates.{certificate_text};

use crate::tasks::with_proof;
use pg_kernel::Proof;
use pg_terms::Name;
use std::alloc::{AllocError, Global};

/// A proof of a world's level.
#[derive(Drop)]
pub struct Cert {
    pub world: Name,
    /// The level's number in its world, from 1 on.
    pub level: u16,
    pub proof: Proof,
}

/// The text of a certificate (docs/CERTIFICATES.md). It needs no more of the machine's stack for a
/// high proof than for a low one, and it fails only for want of memory.
pub fn write_cert(alloc: Global, cert: &Cert) -> Result<String, AllocError>
    ensures { IfOk result (λ text. string_bytes text ≡ certificate_text cert.now.world cert.now.level (proof cert.now.proof)) }
{
    let mut text = format!(in alloc; "cert 1\nlevel {} {}\n", cert.world.as_str(), cert.level)?;
    text = with_proof(alloc, text, &cert.proof)?;
    text.push_str("end\n")?;
    Ok(text)
}
