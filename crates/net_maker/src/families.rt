//! Families of scripts.

ghost use Rattle.std.specs.Prelude.{◌≡◌, ◌++◌, IfOk, codes};
ghost use Rattle.std.specs.Fmt.{decimal};
ghost use Rattle.net_maker.specs.Families.{family_name, family_text, greatest, least, lines_of};
ghost use Rattle.csp_base.specs.Texts.{line};

use csp_base::{Bytes, Made};
use dl_limits::MOST_COMPONENTS;
use std::alloc::Global;

// The lines of the philosophers after the first one.
const FORKS: &[u8] = b"ID = {0..N-1}\n\
REST = {1..N-1}\n\
channel thinks, eats : ID\n\
channel picks, drops : ID.{0..1}\n\
PHIL(i) = thinks.i -> picks.i.0 -> picks.i.1 -> eats.i -> drops.i.1 -> drops.i.0 -> PHIL(i)\n\
LEFT(i) = thinks.i -> picks.i.1 -> picks.i.0 -> eats.i -> drops.i.0 -> drops.i.1 -> LEFT(i)\n\
FORK(i) = picks.i.0 -> drops.i.0 -> FORK(i) [] picks.(i-1)%N.1 -> drops.(i-1)%N.1 -> FORK(i)\n\
AP(i) = {| thinks.i, eats.i, picks.i, drops.i |}\n\
AF(i) = {picks.i.0, drops.i.0, picks.(i-1)%N.1, drops.(i-1)%N.1}\n\
ACQ(i) = {picks.i.0, picks.(i-1)%N.1}\n\
REL(i) = {drops.i.0, drops.(i-1)%N.1}\n\
--@ resource FORK ACQ REL\n\
USERS = LEFT(0) [AP(0) || {| thinks.i, eats.i, picks.i, drops.i | i <- REST |}] (|| i:REST @ [AP(i)] PHIL(i))\n\
FORKS = || i:ID @ [AF(i)] FORK(i)\n\
SYSTEM = USERS [{| thinks, eats, picks, drops |} || {| picks, drops |}] FORKS\n\
assert SYSTEM :[deadlock free [F]]\n";

// The lines of the row after the first one.
const CHAIN: &[u8] = b"ID = {0..N-1}\n\
channel req, ack : ID\n\
NODE(i) = req.i -> (if i < N-1 then req.(i+1) -> ack.(i+1) -> ack.i -> NODE(i) else ack.i -> NODE(i))\n\
A(i) = if i < N-1 then {req.i, ack.i, req.(i+1), ack.(i+1)} else {req.i, ack.i}\n\
CREQ(i) = if i < N-1 then {req.(i+1)} else {}\n\
CACK(i) = if i < N-1 then {ack.(i+1)} else {}\n\
SREQ(i) = if i > 0 then {req.i} else {}\n\
SACK(i) = if i > 0 then {ack.i} else {}\n\
--@ roles NODE CREQ CACK SREQ SACK\n\
CHAIN = || i:ID @ [A(i)] NODE(i)\n\
assert CHAIN :[deadlock free]\n";

// The lines of the mesh after the first one.
const MESH: &[u8] = b"ROW = {0..N-1}\n\
channel h, v : {0..N}.{0..N}\n\
CELL(i,j) = h.i.j -> v.i.j -> h.i.(j+1) -> v.(i+1).j -> CELL(i,j)\n\
A(i,j) = {h.i.j, v.i.j, h.i.(j+1), v.(i+1).j}\n\
R(i) = union({h.i.j | j <- {0..N}}, {v.i.j, v.(i+1).j | j <- ROW})\n\
LINE(i) = || j:ROW @ [A(i,j)] CELL(i,j)\n\
MESH = || i:ROW @ [R(i)] LINE(i)\n\
assert MESH :[deadlock free]\n";

/// A family of scripts.
#[derive(Clone, Copy)]
pub enum Family {
    /// Philosophers and their forks, two or more of each.
    Forks,
    /// A row of clients and servers.
    Chain,
    /// A square mesh of cells, of which the size is one row.
    Mesh,
}

/// How a family is written on a command line.
pub fn name_of(family: Family) -> &'static [u8]
    ensures { result.now ≡ family_name family }
{
    match family {
        Family::Forks => b"forks",
        Family::Chain => b"chain",
        Family::Mesh => b"mesh",
    }
}

/// The least size of a family.
pub fn least_size(family: Family) -> u32
    ensures { result ≡ least family }
{
    match family {
        Family::Forks => 2,
        Family::Chain | Family::Mesh => 1,
    }
}

/// The greatest size of a family: one more would make more than MOST_COMPONENTS components.
pub fn greatest_size(family: Family) -> u32
    ensures { result ≡ greatest family }
{
    match family {
        Family::Forks => MOST_COMPONENTS as u32 / 2,
        Family::Chain => MOST_COMPONENTS as u32,
        Family::Mesh => 22,
    }
}

// The lines of a family after the first one.
fn lines(family: Family) -> &'static [u8]
    ensures { result.now ≡ lines_of family }
{
    match family {
        Family::Forks => FORKS,
        Family::Chain => CHAIN,
        Family::Mesh => MESH,
    }
}

// The line that says a size.
fn size_line(alloc: Global, n: u32) -> Made<Bytes>
    ensures { IfOk result (λ text. text ≡ line (codes "N = " ++ decimal n)) }
{
    let text = format!(in alloc; "N = {n}\n")?;
    Bytes::from_slice(alloc, text.as_bytes())
}

// A text after the line that says a size.
fn with_size(alloc: Global, n: u32, lines: &[u8]) -> Made<Bytes>
    ensures { IfOk result (λ text. text ≡ line (codes "N = " ++ decimal n) ++ lines.now) }
{
    let mut text = size_line(alloc, n)?;
    text.extend_from_slice(lines)?;
    Ok(text)
}

/// The script of the family of this size.
pub fn family_script(alloc: Global, family: Family, n: u32) -> Made<Bytes>
    ensures { IfOk result (λ text. text ≡ family_text family n) }
{
    with_size(alloc, n, lines(family))
}
