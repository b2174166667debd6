// Where the program's objects are.
use crate::RealStore;
use ahead_store::AheadStore;
use bucket_config::{BucketConfig, BucketConfigFault, GivenKey, bucket_config_of};
use bucket_store::{BucketFault, BucketPlace, BucketStore};
use edge_std::{FileStore, StdClock, TcpWay, random_mark};
use fresh_store::{Absences, FreshStore};
use json_tree::{Text, copy_text_or_none};
use signed_call::{CallKey, CallPlace};
use std::alloc::{AllocError, AllocFailed, Global};
use std::env::VarError;
use std::io::ErrorKind;
use std::sync::{Arc, Mutex};
use std::{env, fs, io};

// The file, in the folder that the program runs in, which says where the bucket is.
const FILE: &str = "bucket.json";

// A store of a bucket, of which long objects are read in long pieces, and which is asked anew for what was absent only after a while.
pub(crate) type FreshBucket<R> = FreshStore<R, AheadStore<BucketStore<TcpWay, StdClock>>, StdClock>;

/// Where the program's objects are.
#[derive(Drop)]
pub enum StorePlace {
    /// In the folder that the program runs in.
    Folder,
    /// In a bucket, of which all stores of the program know together what was found absent.
    Bucket(BucketConfig, Arc<Mutex<Absences>, Global>),
}

/// Why there is no store.
#[derive(Drop)]
pub enum PlaceFault {
    /// `bucket.json` is there, and can't be read.
    NotRead,
    /// It doesn't say where a bucket is.
    NotSaid(BucketConfigFault),
    /// The system has no random bytes.
    NoRandomness,
    /// The bucket can't be a store.
    NoStore(BucketFault),
    /// Memory is wanting.
    NoMemory,
}

impl From<AllocError> for PlaceFault {
    fn from(_: AllocError) -> Self {
        PlaceFault::NoMemory
    }
}

impl<T: Drop> From<AllocFailed<T>> for PlaceFault {
    fn from(_: AllocFailed<T>) -> Self {
        PlaceFault::NoMemory
    }
}

// The text of the environment's variable; none where it is absent, empty or no text.
fn given(rt: &HostRuntime, name: &str) -> Result<Option<Text>, AllocError> {
    match env::var(rt, name) {
        Ok(text) if text.is_empty() => Ok(None),
        Ok(text) => Ok(Some(Text::of(text))),
        Err(VarError::OutOfMemory) => Err(AllocError),
        Err(_) => Ok(None),
    }
}

fn given_key(rt: &HostRuntime) -> Result<GivenKey, AllocError> {
    Ok(GivenKey {
        id: given(rt, "AWS_ACCESS_KEY_ID")?,
        secret: given(rt, "AWS_SECRET_ACCESS_KEY")?,
        token: given(rt, "AWS_SESSION_TOKEN")?,
    })
}

// The bytes of `bucket.json`, none where it isn't there.
fn stated(rt: &HostRuntime) -> Result<Option<Vec<u8>>, PlaceFault> {
    match fs::read(rt, FILE) {
        Ok(bytes) => Ok(Some(bytes)),
        Err(e) if e.kind() == ErrorKind::NotFound => Ok(None),
        Err(e) if e.kind() == ErrorKind::OutOfMemory => Err(PlaceFault::NoMemory),
        Err(_) => Err(PlaceFault::NotRead),
    }
}

fn place_of(rt: &HostRuntime, config: &BucketConfig) -> Result<BucketPlace, AllocError> {
    let alloc = rt.alloc();
    Ok(BucketPlace {
        address: config.address.host.copy(alloc)?,
        port: config.address.port,
        bucket: CallPlace {
            host: config.place.host.copy(alloc)?,
            region: config.place.region.copy(alloc)?,
            bucket: config.place.bucket.copy(alloc)?,
        },
        key: CallKey {
            id: config.key.id.copy(alloc)?,
            secret: config.key.secret.copy(alloc)?,
            token: copy_text_or_none(alloc, &config.key.token)?,
        },
        prefix: config.prefix.copy(alloc)?,
    })
}

fn mark_of(rt: &HostRuntime) -> Result<Text, PlaceFault> {
    match random_mark(rt) {
        Ok(mark) => Ok(Text::of(mark)),
        Err(e) if e.kind() == ErrorKind::OutOfMemory => Err(PlaceFault::NoMemory),
        Err(_) => Err(PlaceFault::NoRandomness),
    }
}

fn bucket_of(
    rt: &HostRuntime,
    config: &BucketConfig,
) -> Result<BucketStore<TcpWay, StdClock>, PlaceFault> {
    let place = place_of(rt, config)?;
    let mark = mark_of(rt)?;
    let way = TcpWay::new(rt.clone()?);
    let clock = StdClock::new(rt.clone()?);
    Ok(BucketStore::new(rt.alloc(), place, way, clock, mark))
}

// Another handle of the bucket.
fn fresh_of(
    rt: &HostRuntime,
    config: &BucketConfig,
    absences: &Arc<Mutex<Absences>, Global>,
) -> Result<FreshBucket<HostRuntime>, PlaceFault> {
    let bucket = AheadStore::new(rt.alloc(), bucket_of(rt, config)?);
    let absences = Arc::try_clone(absences)?;
    let clock = StdClock::new(rt.clone()?);
    Ok(FreshStore::new(rt.clone()?, rt.alloc(), absences, bucket, clock))
}

// The place of a bucket of which nothing is known to be absent.
fn bucket_place(alloc: Global, config: BucketConfig) -> Result<StorePlace, PlaceFault> {
    let absences = Arc::new(alloc, Mutex::new(Absences::new(alloc, config.fresh)?))?;
    Ok(StorePlace::Bucket(config, absences))
}

impl StorePlace {
    /// Where the program's objects are, by `bucket.json` in the folder that it runs in, and for what that leaves out of the key by the environment.
    pub fn read(rt: &HostRuntime) -> Result<StorePlace, PlaceFault> {
        let Some(bytes) = stated(rt)? else {
            return Ok(StorePlace::Folder);
        };
        match bucket_config_of(rt.alloc(), &bytes, &given_key(rt)?) {
            Ok(config) => bucket_place(rt.alloc(), config),
            Err(BucketConfigFault::NoMemory) => Err(PlaceFault::NoMemory),
            Err(fault) => Err(PlaceFault::NotSaid(fault)),
        }
    }

    /// A store of the objects there, with counts of 0.
    pub fn store(&self, rt: &HostRuntime) -> Result<RealStore<HostRuntime>, PlaceFault> {
        match self {
            StorePlace::Folder => {
                let root = String::from_str(rt.alloc(), ".")?;
                Ok(RealStore::of_folder(FileStore::new(rt.clone()?, root)))
            }
            StorePlace::Bucket(config, absences) => {
                Ok(RealStore::of_bucket(fresh_of(rt, config, absences)?))
            }
        }
    }

    /// Looks whether a server can keep its history there. Of a folder nothing is asked; a bucket has the object `_share_log/.share-put-check`
    /// then.
    pub fn check(&self, rt: &HostRuntime) -> Result<(), PlaceFault> {
        let StorePlace::Bucket(config, _) = self else {
            return Ok(());
        };
        match bucket_of(rt, config)?.check() {
            Ok(()) => Ok(()),
            Err(fault) => Err(PlaceFault::NoStore(fault)),
        }
    }
}
