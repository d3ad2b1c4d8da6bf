// The limits within which files, counts, ranges and floats are accepted.
ghost use Rattle.std.specs.Prelude.{◌≡◌};
ghost use Rattle.accept.specs.Limits.{count_limits, float_limits};

// Surfels, members, points or target.
pub const MAX_SURFELS: usize = 400_000;

// Clusters.
pub const MAX_CLUSTERS: usize = 65_536;

// Primitives, planes, objects or materials.
pub const MAX_ENTRIES: usize = 256;

// Bounces.
pub const MAX_BOUNCES: usize = 4_096;

// Links.
pub const MAX_LINKS: usize = 16_777_216;

// Cluster resolution, from the first to the second.
pub const MIN_RESOLUTION: usize = 1;

pub const MAX_RESOLUTION: usize = 64;

// Reach.
pub const MAX_REACH: usize = 511;

// Bytes of a room file, from the first to the second, and the most that `roomlight` takes.
pub const MIN_FILE: usize = 64;

pub const MAX_FILE: usize = 268_435_456;

pub const MAX_PROGRAM_FILE: usize = 65_536;

// Coordinates, normals, plane heights and bounds, either way from zero.
pub const MAX_COORDINATE: f32 = 10_000.0;

// Primitive radii and box half-sizes.
pub const MAX_LENGTH: f32 = 10_000.0;

// Albedo and metallic.
pub const MAX_ALBEDO: f32 = 1.0;

// Surfel area, direct and cluster radius.
pub const MAX_AMOUNT: f32 = 1_000_000.0;

// Cluster area.
pub const MAX_CLUSTER_AREA: f32 = 1e12;

// Weight.
pub const MAX_WEIGHT: f32 = 2.0;

// Cell, from the first to the second.
pub const MIN_CELL: f32 = 0.0001;

pub const MAX_CELL: f32 = 10_000.0;

// Radius of a reading.
pub const MAX_RADIUS: f32 = 10_000.0;

// The limits of counts. Nothing calls it: it holds the constants to their definitions.
fn count_limits() -> [usize; 11]
    ensures { result ≡ count_limits }
{
    [
        MAX_SURFELS,
        MAX_CLUSTERS,
        MAX_ENTRIES,
        MAX_BOUNCES,
        MAX_LINKS,
        MIN_RESOLUTION,
        MAX_RESOLUTION,
        MAX_REACH,
        MIN_FILE,
        MAX_FILE,
        MAX_PROGRAM_FILE,
    ]
}

// The limits of floats. Nothing calls it: it holds the constants to their definitions.
fn float_limits() -> [f32; 9]
    ensures { result ≡ float_limits }
{
    [
        MAX_COORDINATE,
        MAX_LENGTH,
        MAX_ALBEDO,
        MAX_AMOUNT,
        MAX_CLUSTER_AREA,
        MAX_WEIGHT,
        MIN_CELL,
        MAX_CELL,
        MAX_RADIUS,
    ]
}
