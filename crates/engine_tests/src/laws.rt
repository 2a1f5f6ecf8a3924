//! Tables of the plain rules, which the prover computes.

ghost use Rattle.engine_tests.specs.Table.{IsTable};

/// What plain dictionaries answer.
pub fn dictionary_table()
    ensures { IsTable }
{}
