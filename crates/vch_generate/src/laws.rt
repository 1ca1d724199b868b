ghost use Rattle.std.specs.Prelude.{ℕ};
ghost use Rattle.vch_generate.specs.Generated.{generated};
ghost use Rattle.vch_model.specs.Canonical.{IsWritable};

/// A law: each generated scenario is within the limits and has a text.
pub fn generated_is_writable()
    ensures { (n : ℕ) → IsWritable (generated n) }
{}
