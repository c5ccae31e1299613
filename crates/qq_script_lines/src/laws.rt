ghost use Rattle.std.specs.Prelude.{◌≡◌, ◌⊎◌, ◌<◌, ◌^◌, ◌↔◌, ℕ, List, Some, Result, Err};
ghost use Rattle.std.specs.Fmt.{decimal};
ghost use Rattle.qq_base.specs.declared.memory.Memory.TheVariants.{Want};
ghost use Rattle.qq_script_lines.specs.declared.fault.ScriptFault.{ScriptFault};
ghost use Rattle.qq_script_lines.specs.declared.fault.ScriptFault.TheVariants.{Memory as OfMemory};
ghost use Rattle.qq_script_lines.specs.declared.line.ScriptLine.{ScriptLine};
ghost use Rattle.qq_script_lines.specs.Lines.{HasScriptCause};
ghost use Rattle.qq_script_lines.specs.Numbers.{number_of};

/// A law: a word is read as a number exactly where it is the number's decimal text.
pub fn numbers_are_decimal_texts()
    ensures { (word : List ℕ) (n : ℕ) → n < 2 ^ 64 →
        (number_of word ≡ Some n) ↔ (word ≡ decimal n) }
{}

/// A law: a line isn't read since its reading comes to that fault, or since there was no memory.
pub fn faults_of_lines_have_causes()
    ensures { (fault : ScriptFault) (read : Result ScriptLine ScriptFault) →
        HasScriptCause fault read → (read ≡ Err fault) ⊎ (fault ≡ OfMemory Want) }
{}
