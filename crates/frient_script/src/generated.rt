ghost use Rattle.script_form.specs.Generated.{generated_of};
ghost use Rattle.script_read.specs.Limits.{IsScript};

/// The law of the generated script of a number: it is within the limits of scripts.
pub fn generated_law(number: u32)
    ensures { IsScript (generated_of number) }
{}
