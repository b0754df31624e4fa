//! Where links lead.
ghost use Rattle.std.specs.Prelude.{◌≡◌, List};
ghost use Rattle.base_reach.specs.Closure.{AreListed};

/// A relation that lends what each key links to. Only finitely many keys have links.
pub trait Links<K> {
    ghost links: { Self → K → List K };

    ghost sources: { Self → List K };

    /// The keys that one link leads to.
    fn links(&self, from: &K) -> &[K]
        ensures { result.now ≡ links self.now from.now };

    ghost listed: { (graph : Self) → AreListed (links graph) (sources graph) };
}
