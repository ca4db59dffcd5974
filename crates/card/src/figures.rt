// The worked figures as one theorem about the definitions.
ghost use Rattle.card.specs.Figures.{Figures};

pub fn worked_figures()
    ensures { Figures }
{}
