//! The test of what links lead to is true of chains of links alone.
ghost use Rattle.std.specs.Prelude.{Bool, List, length};
ghost use Rattle.std.specs.Bool.{Decides};
ghost use Rattle.base_reach.specs.Closure.{AreListed, LeadsTo, TellsEqual, leads};

/// The test that counts links down from the number of sources holds exactly where one or more links lead from the one to the
/// other, also where links lead in a circle (mathematics: transitive closure). A law: it runs no code.
pub fn leads_is_a_chain_of_links<K>()
    ensures { (same : K → K → Bool) (links : K → List K) (sources : List K)
        → TellsEqual same → AreListed links sources
        → (u v : K) → Decides (leads same links (length sources) u v) (LeadsTo links u v) }
{}
