//! Laws of what leads to which name.

ghost use Rattle.iris_standing.specs.Links.{LinksLead};

/// What a live name stands for leads to its children.
pub fn links_lead()
    ensures { LinksLead }
{}
