//! Tied variables at one switch.

ghost use Rattle.std.specs.Prelude.{◌≡◌, ◌<◌, ◌^◌, IfErr, MatchOption, OnOk, length};
ghost use Rattle.snap_placement.specs.Together.{IsFirstTorn, IsTogether, IsTogetherWith, TellsApart, TiedBy};

use crate::placement::PlaceFault;
use snap_dep::groups::Groups;

/// The first later variable that is tied to `a` and has another owner.
fn torn_from(groups: &Groups, owners: &[u16], a: u16) -> Option<u16>
    requires count { length groups.now.ranks ≡ length owners.now }
    requires few { length owners.now < 2 ^ 16 }
    requires below { a < length owners.now }
    ensures { MatchOption result (IsTogetherWith (TiedBy groups.now) owners.now a)
        (IsFirstTorn (TiedBy groups.now) owners.now a) }
{
    let owner = owners[a as usize];
    for b in a as usize + 1..owners.len() {
        if groups.tied(a, b as u16) && owner != owners[b] {
            return Some(b as u16);
        }
    }
    None
}

/// Refuses owners of tied variables that differ.
pub(crate) fn together(groups: &Groups, owners: &[u16]) -> Result<(), PlaceFault>
    requires count { length groups.now.ranks ≡ length owners.now }
    requires few { length owners.now < 2 ^ 16 }
    ensures ok { OnOk result (IsTogether (TiedBy groups.now) owners.now) }
    ensures apart { IfErr result (TellsApart (TiedBy groups.now) owners.now) }
{
    for a in 0..owners.len() {
        if let Some(b) = torn_from(groups, owners, a as u16) {
            return Err(PlaceFault::Apart { a: a as u16, b });
        }
    }
    Ok(())
}
