//! What is proved of listings.
ghost use Rattle.semantics.specs.Counting.{CountingDecides};
ghost use Rattle.semantics.specs.Injective.{ListingIsInjective};

/// Counting the terms still owed tells a listing from a row that ends too early and from one that has records over.
pub fn counting_decides()
    ensures { CountingDecides }
{}

/// No two terms have the same listing.
pub fn listing_is_injective()
    ensures { ListingIsInjective }
{}
