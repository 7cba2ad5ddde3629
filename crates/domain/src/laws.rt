//! What holds of every layer and of every pile of layers: the contracts are theorems.
ghost use Rattle.domain.specs.Laws.{FaultsPassEveryLayer, HeightsRiseTo255, ScreenAnswersAsBelow, ScreenIsALayer, Stands};

use crate::Domain;
use crate::pile::Pile;

/// Layers keep lawful codes, sameness and the faults from below; their heights rise one by one and stay at 255;
/// and a Screen answers on lawful codes as the domain below.
pub fn layers_keep_answers()
    ensures layer { ScreenIsALayer }
    ensures faults { FaultsPassEveryLayer }
    ensures heights { HeightsRiseTo255 }
    ensures below { ScreenAnswersAsBelow }
{}

/// A pile is so many layers over its bottom, and gives no fault of Screen's cause on lawful codes unless the bottom does.
pub fn pile_stands<B: Domain>(pile: &Pile<B>)
    ensures { Stands B.Domain.meaning pile.now }
{}
