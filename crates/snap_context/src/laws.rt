//! Laws of contexts.

ghost use Rattle.std.specs.Prelude.{◌≡◌, ◌≢◌, ◌≤◌, ◌^◌, ◌↔◌, ◌⊎◌, ◌++◌, [], All, Bool, List, length, true, false, ℕ};
ghost use Rattle.snap_core.specs.declared.policy.Term.{Term};
ghost use Rattle.snap_core.specs.declared.policy.Test.{Test};
ghost use Rattle.snap_core.specs.Arrays.{Arrays, place_at};
ghost use Rattle.snap_core.specs.Tests.{passes};
ghost use Rattle.snap_core.specs.declared.place.Entry.{Entry};
ghost use Rattle.snap_core.specs.Inputs.{IsPacket, IsStore};
ghost use Rattle.snap_core.specs.Listing.{number_in};
ghost use Rattle.snap_context.specs.declared.fact.Fact.{Fact};
ghost use Rattle.snap_context.specs.Classes.{IsTest, Rules, index_of, is_state, var_of};
ghost use Rattle.snap_context.specs.Known.{IsKnown, TestOver};
ghost use Rattle.snap_context.specs.Lean.{Among, IsLean};
ghost use Rattle.snap_context.specs.Meets.{IsMet, Meets, with_fact};
ghost use Rattle.snap_context.specs.View.{IsContext, View};

/// Facts and classes that break no rule have a model.
pub fn kept_rules_have_a_model()
    ensures { (facts : List Fact) (cl : List Term) → Rules facts cl → length cl ≤ 64 → length facts ≤ 2 ^ 32 → IsMet (length cl) facts }
{}

/// To meet facts and one more is to meet the facts and give the answer.
pub fn meets_one_more()
    ensures { (facts : List Fact) (t : Test) (y : Bool) (m : Arrays) (k : List ℕ) → Meets (with_fact facts t y) m k ↔ (Meets facts m k × (passes t m k ≡ y)) }
{}

/// Whatever meets facts meets them with one of a test's answers. So what holds under both answers
/// holds under the facts.
pub fn meets_an_answer()
    ensures { (facts : List Fact) (t : Test) (m : Arrays) (k : List ℕ) → Meets facts m k → Meets (with_fact facts t true) m k ⊎ Meets (with_fact facts t false) m k }
{}

/// Beside contexts of which the same is known about some components and arrays, the same facts about
/// these are met.
pub fn known_alike()
    ensures { (v w : View) (comps arrays : ℕ) (key : List ℕ) → IsContext v → IsContext w → length v.classes ≡ length w.classes
        → IsKnown v comps arrays key → IsKnown w comps arrays key
        → (m : Arrays) (k : List ℕ) → IsPacket (length v.classes) k → Meets v.facts m k
        → (path : List Fact) → All (λ f. IsTest (length w.classes) f.test) path → All (λ f. TestOver comps arrays f.test) path → Meets path m k
        → length (w.facts ++ path) ≤ 2 ^ 32 → IsMet (length w.classes) (w.facts ++ path) }
{}

/// Where a store and a packet meet the facts that stay, some store and the packet meet those that went as well, and
/// answer all tests alike but those of the places of these.
pub fn lean_refilled()
    ensures { (v : View) (stay gone : List Fact) → IsContext v → IsLean v.facts stay gone
        → (es : List Entry) (k : List ℕ) → IsStore (number_in es) → IsPacket (length v.classes) k → Meets stay (number_in es) k
        → (fs : List Entry) × IsStore (number_in fs) × Meets v.facts (number_in fs) k
        × ((t : Test) → ((f : Fact) → Among f gone → is_state t ≡ true → place_at (var_of f.test) (index_of f.test) [] ≢ place_at (var_of t) (index_of t) k)
        → passes t (number_in fs) k ≡ passes t (number_in es) k) }
{}
