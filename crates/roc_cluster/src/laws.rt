//! Laws of cluster files, over all bytes. Each is the contract of a function that does nothing.

ghost use Rattle.std.specs.Prelude.{◌≡◌, ℕ, List};
ghost use Rattle.roc_io.specs.declared.link.Addr.{Addr};
ghost use Rattle.roc_cluster.specs.declared.fault.ClusterFault.{ClusterFault};
ghost use Rattle.roc_cluster.specs.File.{IsClusterFile};
ghost use Rattle.roc_cluster.specs.Answer.{IsFirstIn};

/// Bytes are the file of at most one cluster.
pub fn clusters_are_unique()
    ensures { (shards : ℕ) (bytes : List ℕ) (some other : List Addr) → IsClusterFile shards bytes some → IsClusterFile shards bytes other → some ≡ other }
{}

/// A cluster file breaks no rule.
pub fn cluster_files_keep_the_rules()
    ensures { (shards : ℕ) (bytes : List ℕ) (cluster : List Addr) (fault : ClusterFault) → IsClusterFile shards bytes cluster → ¬ IsFirstIn shards bytes fault }
{}

/// Bytes have at most one first fault.
pub fn first_faults_are_unique()
    ensures { (shards : ℕ) (bytes : List ℕ) (some other : ClusterFault) → IsFirstIn shards bytes some → IsFirstIn shards bytes other → some ≡ other }
{}
