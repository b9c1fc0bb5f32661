//! What a world of a run is to the kernel that its journal replays to: that kernel, in parts. Each deed is the kernel's
//! part of its name, each number is free in one place or used, and each call under way is in one place.
//! `specs/Projection.antt` says it on one page, over nodes, streams and held lists. Nothing runs here.
#![tactic(auto)]

ghost use Rattle.projection_laws.specs.Laws.{EachPrefixProjects, WorldsProject};

/// Each world that a run leads to projects to the kernel that its journal replays to.
pub fn worlds_project()
    ensures { WorldsProject }
{}

/// After every prefix of every run there is such a world and such a kernel.
pub fn each_prefix_projects()
    ensures { EachPrefixProjects }
{}
