//! Relations between at most 64 variables: for each variable the set of those that are related to it.

ghost use Rattle.std.specs.Prelude.{◌≡◌, ◌≢◌, ◌^◌, ◌≤◌, ◌<◌, ◌↔◌, ◌⊎◌, ℕ, IsTrue, length};
ghost use Rattle.snap_core.specs.Arrays.{has};
ghost use Rattle.snap_core.specs.declared.policy.Pol.{Pol};
ghost use Rattle.snap_dep.specs.Dependencies.{Depends, Reaches, Tied, UsesBelow};
ghost use Rattle.snap_dep.specs.Relations.{Relates, IsRelation};

// Whether a set has a variable.
pub(crate) fn has_var(set: u64, var: usize) -> bool
    requires { var < 64 }
    ensures { result ≡ has set var }
{
    set >> var & 1 == 1
}

// The set of one variable.
pub(crate) fn only(var: usize) -> u64
    requires { var < 64 }
    ensures { result ≡ 2 ^ var }
{
    1 << var
}

// A set without one variable.
pub(crate) fn without(set: u64, var: usize) -> u64
    requires { var < 64 }
    ensures set { (v : ℕ) → IsTrue (has result v) ↔ (IsTrue (has set v) × (v ≢ var)) }
    ensures less { IsTrue (has set var) → result < set }
{
    set & !(1 << var)
}

// Relates each variable of the one set to each of the other.
pub(crate) fn relate(rows: &mut [u64], from: u64, to: u64)
    requires small { length rows.old ≤ 64 }
    requires within { (t : ℕ) → IsTrue (has to t) → t < length rows.old }
    ensures { (s t : ℕ) → Relates rows.new s t ↔ (Relates rows.old s t ⊎ (IsTrue (has from s) × IsTrue (has to t))) }
{
    if from == 0 || to == 0 {
        return;
    }
    for (var, row) in rows.iter_mut().enumerate() {
        if has_var(to, var) {
            *row |= from;
        }
    }
}

// Relates also what is related by way of one variable.
fn lead_through(rows: &mut [u64], var: usize)
    requires small { length rows.old ≤ 64 }
    requires within { var < length rows.old }
    ensures { (s t : ℕ) → Relates rows.new s t ↔ (Relates rows.old s t ⊎ (Relates rows.old s var × Relates rows.old var t)) }
{
    let before = rows[var];
    for row in rows.iter_mut() {
        if has_var(*row, var) {
            *row |= before;
        }
    }
}

// From dependencies to chains of them.
pub(crate) fn close(rows: &mut [u64])
    requires { length rows.old ≤ 64 }
    ensures { (p : Pol) → UsesBelow (length rows.old) p → IsRelation (Depends p) rows.old → IsRelation (Reaches p) rows.new }
{
    for var in 0..rows.len() {
        lead_through(rows, var);
    }
}

// Whether two variables are the same or each reaches the other.
pub(crate) fn are_tied(rows: &[u64], a: usize, b: usize) -> bool
    requires small { length rows.now ≤ 64 }
    requires a_within { a < length rows.now }
    requires b_within { b < length rows.now }
    ensures { (p : Pol) → IsRelation (Reaches p) rows.now → IsTrue result ↔ Tied p a b }
{
    a == b || has_var(rows[a], b) && has_var(rows[b], a)
}
