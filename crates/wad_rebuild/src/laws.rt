//! Laws about rebuilt levels: the contracts of functions whose bodies are empty.
ghost use Rattle.wad_rebuild.specs.Alike.{LevelsRestOnTheirLumps};
ghost use Rattle.wad_rebuild.specs.ReadBack.{BuildsAreDrawnAs, BuildsAreTheRebuiltLumps, RebuiltLevelsReadBack, RebuiltLumpsAreTheBuilds, RebuiltMapsAreBuilt};

/// `read_level` of the bytes that `rebuild_wad` gives returns, for a level that was built anew and that its name finds,
/// the lists that were drawn of it and those that were made; or memory runs out.
pub fn rebuilt_levels_read_back()
    ensures { RebuiltLevelsReadBack }
{}

/// A level that is a map up to the last vertex that a line uses, without a REJECT that hides a sector, becomes a level
/// that a build makes of the map.
pub fn rebuilt_maps_are_built()
    ensures { RebuiltMapsAreBuilt }
{}

/// The ten lumps of such a level become the very bytes that a build of the map gives. If its marker is empty and has
/// the map's name, the PWAD of the build is that of the level's eleven lumps.
pub fn rebuilt_lumps_are_the_builds()
    ensures lumps { RebuiltLumpsAreTheBuilds }
    ensures wad { BuildsAreTheRebuiltLumps }
{}

/// A level that a build makes of a map is such a level, if a line uses the map's last vertex: a rebuild gives it the
/// same lumps again.
pub fn built_levels_are_drawn()
    ensures { BuildsAreDrawnAs }
{}

/// What becomes of each level of a WAD rests on the names in its directory, and on what was drawn of the levels that
/// are asked for: it is the same in another WAD that has the same ones, whatever else the two hold.
pub fn levels_rest_on_their_lumps()
    ensures { LevelsRestOnTheirLumps }
{}
