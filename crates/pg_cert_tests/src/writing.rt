//! The example of docs/CERTIFICATES.md, and the shortest certificate.

use pg_cert::{Cert, write_cert};
use pg_kernel::Proof;
use pg_terms::{Formula, Name, Term};
use sqlite_items::{Boxed, Items};
use std::alloc::{AllocError, Global};
use std::test::Fail;

/// The sum of two terms.
fn sum(alloc: Global, s: Term, t: Term) -> Result<Term, AllocError> {
    let mut args = Items::new(alloc);
    args.push(s)?;
    args.push(t)?;
    Ok(Term::App(0, args))
}

/// `∀ n, n = n + 0`, from theorem 2 and the reflexivity of equality.
fn turned(alloc: Global) -> Result<Proof, AllocError> {
    let body = Formula::Eq(sum(alloc, Term::Bound(0), Term::Zero)?, Term::Bound(0));
    let equation = Proof::Alle(body, Term::Free(0), Boxed::new(alloc, Proof::Thm(2))?);
    let same = Boxed::new(alloc, Proof::Refl)?;
    let left = sum(alloc, Term::Free(0), Term::Zero)?;
    let body = Formula::Eq(Term::Bound(0), sum(alloc, Term::Free(0), Term::Zero)?);
    let equation = Boxed::new(alloc, equation)?;
    let both = Proof::Repl(body, left, Term::Free(0), equation, same);
    Ok(Proof::Alli(Boxed::new(alloc, both)?))
}

#[test]
fn a_proof_of_one_line(rt: HostRuntime) -> Result<(), Fail> {
    let alloc = rt.alloc();
    let cert = Cert {
        world: Name::new(alloc, "W")?,
        level: 1,
        proof: Proof::Refl,
    };
    assert!(rt; write_cert(alloc, &cert)?.as_str() == "cert 1\nlevel W 1\n1 refl\nend\n");
    Ok(())
}

#[test]
fn premises_stand_before_what_uses_them(rt: HostRuntime) -> Result<(), Fail> {
    let alloc = rt.alloc();
    let cert = Cert {
        world: Name::new(alloc, "Addition")?,
        level: 65535,
        proof: turned(alloc)?,
    };
    let lines =
        "1 thm 2\n2 alle =(f0(b0,0),b0) v0 #1\n3 refl\n4 repl =(b0,f0(v0,0)) f0(v0,0) v0 #2 #3\n5 alli #4\n";
    let want = format!(in alloc; "cert 1\nlevel Addition 65535\n{lines}end\n")?;
    assert!(rt; write_cert(alloc, &cert)?.as_str() == want.as_str());
    Ok(())
}
