//! The proof that frames make.
use pg_frames::{Frame, finish};
use pg_kernel::Proof;
use sqlite_items::{Boxed, Items};
use std::alloc::{AllocError, Global};
use std::test::Fail;

/// `intro h`, `constructor` and then hypothesis 0 for each goal.
fn both_sides(alloc: Global) -> Result<Items<Frame>, AllocError> {
    let mut frames = Items::new(alloc);
    frames.push(Frame::UnderImpi)?;
    frames.push(Frame::Pair)?;
    for _ in 0..2 {
        let known = Boxed::new(alloc, Proof::Hyp(0))?;
        frames.push(Frame::Whole(known))?;
    }
    Ok(frames)
}

/// Whether a proof is `impi (andi (hyp 0) (hyp 0))`.
fn is_whole(p: &Proof) -> bool {
    let Proof::Impi(p) = p else { return false };
    let Proof::Andi(p, q) = p.get() else {
        return false;
    };
    matches!(p.get(), Proof::Hyp(0)) && matches!(q.get(), Proof::Hyp(0))
}

#[test]
fn frames_in_the_order_of_moves_make_the_proof(rt: HostRuntime) -> Result<(), Fail> {
    let alloc = rt.alloc();
    let proof = finish(alloc, both_sides(alloc)?)?;
    assert!(rt; proof.is_some());
    if let Some(p) = proof {
        assert!(rt; is_whole(p.get()));
    }
    Ok(())
}

#[test]
fn a_hole_without_a_proof_leaves_none(rt: HostRuntime) -> Result<(), Fail> {
    let alloc = rt.alloc();
    let mut frames = both_sides(alloc)?;
    let _ = frames.pop();
    assert!(rt; finish(alloc, frames)?.is_none());
    Ok(())
}
