ghost use Rattle.phys_columns.specs.Laws.{PutsAlone, TakesAlone};

/// Law: a value put in a cell is found there, a cell that is cleared has none, and every other cell keeps its value.
pub fn cells_are_a_map()
    ensures put { PutsAlone }
    ensures taken { TakesAlone }
{}
