//! Putting whole processes into a pool.

ghost use Rattle.std.specs.Prelude.{◌≡◌, ◌∷◌, [], Some, slice_get, IfOk};
ghost use Rattle.csp_program.specs.declared.processes.Proc.TheViews.{out-Proc};
ghost use Rattle.term_pool.specs.Prelude.{layer_parts, shown, moved, Grows, StandAt};

use crate::changed::at;
use crate::node::Node;
use crate::pool::Pool;
use crate::under::{one, two};
use containers::Items;
use csp_base::Made;
use csp_program::Proc;
use pool_parts::ProcId;

// The node of the process whose sub-processes stand at the places.
#[tactic(auto, using(csp_program::specs::declared::processes::Proc::the_lemmas))]
fn node_over<'a>(proc: &'a Proc, ids: &'a Items<ProcId>) -> Node<'a>
    ensures { shown result ≡ moved (out-Proc proc.now) ids.now }
{
    match proc {
        Proc::Stop => Node::Stop,
        Proc::Prefix(head, fields, _) => Node::Prefix(head, fields, at(ids, 0)),
        Proc::Guard(c, _) => Node::Guard(c, at(ids, 0)),
        Proc::If(c, _, _) => Node::If(c, at(ids, 0), at(ids, 1)),
        Proc::External(_) => Node::External(ids),
        Proc::Internal(_) => Node::Internal(ids),
        Proc::EachExternal(slot, set, _) => Node::EachExternal(*slot, set, at(ids, 0)),
        Proc::EachInternal(slot, set, _) => Node::EachInternal(*slot, set, at(ids, 0)),
        Proc::Hide(_, set) => Node::Hide(at(ids, 0), set),
        Proc::Rename(_, pairs, gens) => Node::Rename(at(ids, 0), pairs, gens),
        Proc::Call(definition, args) => Node::Call(*definition, args),
        Proc::Skip => Node::Skip,
        Proc::Seq(_, _) => Node::Seq(at(ids, 0), at(ids, 1)),
        Proc::Ended => Node::Ended,
    }
}

/// The place of the process, which is put into the pool.
#[cycle(put_tree)]
pub(crate) fn put_tree(pool: &mut Pool, proc: &Proc) -> Made<ProcId>
    ensures process { IfOk result (λ id. slice_get pool.new id.0 ≡ Some proc.now) }
    ensures grows { Grows pool.old pool.new (proc.now ∷ []) }
{
    let ids = put_below(pool, proc)?;
    pool.put_node(node_over(proc, &ids))
}

// The places of the sub-processes of the process, which are put into the pool.
#[cycle(put_tree)]
#[tactic(auto, using(csp_program::specs::declared::processes::Proc::the_lemmas))]
fn put_below(pool: &mut Pool, proc: &Proc) -> Made<Items<ProcId>>
    ensures places { IfOk result (λ ids. StandAt pool.new ids (layer_parts (out-Proc proc.now))) }
    ensures grows { Grows pool.old pool.new (layer_parts (out-Proc proc.now)) }
{
    match proc {
        Proc::Stop => Ok(Items::new(pool.alloc())),
        Proc::Prefix(_, _, p) => put_one(pool, p.get()),
        Proc::Guard(_, p) => put_one(pool, p.get()),
        Proc::If(_, p, q) => put_two(pool, p.get(), q.get()),
        Proc::External(procs) => put_trees(pool, procs.as_slice()),
        Proc::Internal(procs) => put_trees(pool, procs.as_slice()),
        Proc::EachExternal(_, _, p) => put_one(pool, p.get()),
        Proc::EachInternal(_, _, p) => put_one(pool, p.get()),
        Proc::Hide(p, _) => put_one(pool, p.get()),
        Proc::Rename(p, _, _) => put_one(pool, p.get()),
        Proc::Call(_, _) => Ok(Items::new(pool.alloc())),
        Proc::Skip => Ok(Items::new(pool.alloc())),
        Proc::Seq(p, q) => put_two(pool, p.get(), q.get()),
        Proc::Ended => Ok(Items::new(pool.alloc())),
    }
}

// The place of the process, which is put into the pool.
#[cycle(put_tree)]
fn put_one(pool: &mut Pool, p: &Proc) -> Made<Items<ProcId>>
    ensures places { IfOk result (λ ids. StandAt pool.new ids (p.now ∷ [])) }
    ensures grows { Grows pool.old pool.new (p.now ∷ []) }
{
    let p = put_tree(pool, p)?;
    one(pool.alloc(), p)
}

// The places of both processes, which are put into the pool.
#[cycle(put_tree)]
fn put_two(pool: &mut Pool, p: &Proc, q: &Proc) -> Made<Items<ProcId>>
    ensures places { IfOk result (λ ids. StandAt pool.new ids (p.now ∷ q.now ∷ [])) }
    ensures grows { Grows pool.old pool.new (p.now ∷ q.now ∷ []) }
{
    let first = put_tree(pool, p)?;
    let second = put_tree(pool, q)?;
    two(pool.alloc(), first, second)
}

// The places of the processes, which are put into the pool.
#[cycle(put_tree)]
fn put_trees(pool: &mut Pool, procs: &[Proc]) -> Made<Items<ProcId>>
    ensures places { IfOk result (λ ids. StandAt pool.new ids procs.now) }
    ensures grows { Grows pool.old pool.new procs.now }
{
    let mut ids = Items::new(pool.alloc());
    for proc in procs {
        ids.push_made(put_tree(pool, proc))?;
    }
    Ok(ids)
}
