ghost use Rattle.std.specs.Prelude.{◌≡◌, ◌<◌, ◌^◌};
ghost use Rattle.rk_types.specs.Hashing.{hash_of, lane_of as lane_of_lem, bucket_of as bucket_of_lem};

/// How many lanes there are: the logs and tables of a master are cut by the lane of a key.
pub const LANES: u8 = 8;

/// How many buckets a lane has.
pub const BUCKETS: u16 = 1024;

/// The hash of no bytes.
pub const HASH_START: u64 = 14_695_981_039_346_656_037;

/// What each byte multiplies the hash by.
pub const HASH_PRIME: u64 = 1_099_511_628_211;

/// The 64-bit FNV-1a hash of these bytes.
#[tactic(auto, unfolding(crate::specs::Hashing::hash_of))]
pub fn hash(bytes: &[u8]) -> u64
    ensures { result ≡ hash_of bytes.now }
{
    bytes.iter().fold(HASH_START, |hash, byte| {
        (hash ^ u64::from(*byte)).wrapping_mul(HASH_PRIME)
    })
}

/// The lane, 0 to 7, of a key with this hash.
pub fn lane_of(hash: u64) -> u8
    ensures lane { result ≡ lane_of_lem hash }
    ensures within { result < LANES }
{
    (hash % u64::from(LANES)) as u8
}

/// The bucket, 0 to 1,023, of a key with this hash.
pub fn bucket_of(hash: u64) -> u16
    ensures bucket { result ≡ bucket_of_lem hash }
    ensures within { result < BUCKETS }
{
    (hash / u64::from(LANES) % u64::from(BUCKETS)) as u16
}
