// What holds of every listing.
ghost use Rattle.std.specs.Prelude.{◌≡◌, ℕ, List};
ghost use Rattle.g4_net.specs.Network.{ParserNetwork};
ghost use Rattle.g4_netlist.specs.Listing.{IsListing};

/// A rule has at most one listing.
pub fn one_listing()
    ensures { (names shown : List (List ℕ)) (net : ParserNetwork) (rule : ℕ) (one other : List ℕ) → IsListing names shown net rule one
        → IsListing names shown net rule other → one ≡ other }
{}
