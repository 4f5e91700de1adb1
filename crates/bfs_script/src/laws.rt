// A law of scripts: the contract of a function that does nothing.
ghost use Rattle.bfs_script.specs.ScriptLaws.{LinesAreInForm};

/// Every line of a script is in form.
pub fn lines_are_in_form()
    ensures { LinesAreInForm }
{}
