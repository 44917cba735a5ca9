// Whether tables hold a graph: the first record whose numbers stand for no atom or bond.
#![tactic(auto)]

ghost use Rattle.std.specs.Prelude.{◌≡◌, ◌^◌, ◌<◌, ◌+◌, IfErr, IfSome};
ghost use Rattle.table_check.specs.Judge.{bond_stands, atoms_from, first_bad_bond, bad_record};

use packing::{is_atom, load_bond};
use table::{ATOM_WORDS, BOND_WORDS, DEGREE, look};

#[tactic(auto, unfolding(crate::specs::Judge::bond_stands, crate::specs::Judge::is_entry))]
fn is_bond(bonds: &[u32], e: usize) -> bool
    requires { e < 2 ^ 32 }
    ensures { result ≡ bond_stands bonds.now e }
{
    match load_bond(bonds, e * BOND_WORDS) {
        Some((_, _)) => true,
        None => false,
    }
}

// The n atoms, of whose entries there are m: how many of these they hold, or the first bad atom.
#[tactic(auto, using(crate::proofs::Records::atom_over, crate::proofs::Records::atom_bad, crate::proofs::Records::atom_good, crate::proofs::Records::atoms_end))]
fn judge_atoms(atoms: &[u32], n: usize, m: usize) -> Result<usize, usize>
    requires { n < 2 ^ 32 }
    ensures first { result ≡ atoms_from atoms.now m n 0 0 }
    ensures within { IfErr result (λ a. a < n) }
{
    let mut held = 0;
    for a in 0..n {
        let degree = look(atoms, a * ATOM_WORDS + DEGREE) as usize;
        if m - held < degree || !is_atom(atoms, a) {
            return Err(a);
        }
        held += degree;
    }
    Ok(held)
}

// The first bad one of m entries, of which the atoms hold so many.
#[tactic(auto, using(crate::proofs::Records::bond_unheld, crate::proofs::Records::bond_bad, crate::proofs::Records::bond_good, crate::proofs::Records::bonds_end))]
fn judge_bonds(bonds: &[u32], m: usize, held: usize) -> Option<usize>
    requires { m < 2 ^ 32 }
    ensures first { result ≡ first_bad_bond bonds.now held m 0 }
    ensures within { IfSome result (λ e. e < m) }
{
    for e in 0..m {
        if held <= e || !is_bond(bonds, e) {
            return Some(e);
        }
    }
    None
}

// The first record of n atoms and m entries that stands for nothing.
#[tactic(auto, unfolding(crate::specs::Judge::bad_record, crate::specs::Judge::after_atoms))]
pub fn judge(atoms: &[u32], n: usize, bonds: &[u32], m: usize) -> Option<usize>
    requires { (n < 2 ^ 32) × (m < 2 ^ 32) }
    ensures first { result ≡ bad_record atoms.now n bonds.now m }
    ensures within { IfSome result (λ r. r < n + m) }
{
    match judge_atoms(atoms, n, m) {
        Err(a) => Some(a),
        Ok(held) => match judge_bonds(bonds, m, held) {
            Some(e) => Some(n + e),
            None => None,
        },
    }
}
