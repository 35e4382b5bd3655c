//! A suite of the model of disks.

/// Rows that cover each pair of values which some row serves.
pub(crate) const ROWS: u32 = 59;

/// Their report.
pub(crate) const REPORT: &str = "\
    Type\tSize\tFormat method\tFile system\tCluster size\tCompression\n\
    Primary\t10\tquick\tFAT\t512\ton\n\
    Primary\t100\tslow\tFAT32\t1024\toff\n\
    Logical\t500\tquick\tNTFS\t2048\toff\n\
    Single\t1000\tslow\tNTFS\t4096\ton\n\
    Span\t5000\tquick\tFAT32\t8192\ton\n\
    Span\t10\tslow\tFAT\t16384\toff\n\
    Logical\t10000\tslow\tFAT32\t32768\ton\n\
    Stripe\t100\tquick\tFAT\t65536\ton\n\
    Stripe\t5000\tslow\tNTFS\t512\toff\n\
    Mirror\t1000\tquick\tFAT\t32768\toff\n\
    RAID-5\t40000\tquick\tNTFS\t1024\ton\n\
    Mirror\t500\tslow\tFAT32\t2048\ton\n\
    Single\t10000\tquick\tFAT32\t4096\toff\n\
    RAID-5\t10\tslow\tFAT32\t65536\toff\n\
    Primary\t40000\tslow\tNTFS\t8192\toff\n\
    Stripe\t1000\tquick\tFAT32\t16384\ton\n\
    Single\t500\tquick\tFAT\t1024\ton\n\
    Span\t100\tquick\tNTFS\t32768\ton\n\
    Mirror\t10000\tquick\tNTFS\t16384\ton\n\
    Logical\t10\tquick\tFAT\t4096\ton\n\
    RAID-5\t100\tquick\tFAT\t2048\ton\n\
    Primary\t500\tquick\tNTFS\t65536\ton\n\
    Logical\t100\tquick\tFAT\t8192\ton\n\
    Logical\t1000\tquick\tFAT32\t512\ton\n\
    Single\t10\tquick\tNTFS\t2048\ton\n\
    Primary\t1000\tquick\tFAT\t2048\ton\n\
    Primary\t5000\tquick\tFAT32\t4096\ton\n\
    Logical\t5000\tquick\tFAT32\t1024\ton\n\
    Logical\t40000\tquick\tNTFS\t16384\ton\n\
    Single\t100\tquick\tFAT\t512\ton\n\
    Single\t5000\tquick\tFAT32\t16384\ton\n\
    Single\t40000\tquick\tNTFS\t32768\ton\n\
    Span\t500\tquick\tFAT\t512\ton\n\
    Span\t1000\tquick\tFAT\t1024\ton\n\
    Span\t10000\tquick\tFAT32\t2048\ton\n\
    Span\t40000\tquick\tNTFS\t4096\ton\n\
    Stripe\t10\tquick\tFAT\t1024\ton\n\
    Stripe\t500\tquick\tFAT\t4096\ton\n\
    Stripe\t10000\tquick\tFAT32\t8192\ton\n\
    Stripe\t40000\tquick\tNTFS\t2048\ton\n\
    Mirror\t10\tquick\tFAT\t8192\ton\n\
    Mirror\t100\tquick\tFAT\t4096\ton\n\
    Mirror\t5000\tquick\tFAT32\t65536\ton\n\
    Mirror\t40000\tquick\tNTFS\t512\ton\n\
    RAID-5\t500\tquick\tFAT\t8192\ton\n\
    RAID-5\t5000\tquick\tFAT32\t32768\ton\n\
    RAID-5\t10000\tquick\tFAT32\t512\ton\n\
    Primary\t10\tquick\tFAT\t32768\ton\n\
    Primary\t100\tquick\tFAT\t16384\ton\n\
    Primary\t10000\tquick\tFAT32\t1024\ton\n\
    Logical\t1000\tquick\tFAT\t65536\ton\n\
    Single\t1000\tquick\tFAT\t8192\ton\n\
    Single\t10000\tquick\tFAT32\t65536\ton\n\
    Span\t40000\tquick\tNTFS\t65536\ton\n\
    Stripe\t500\tquick\tFAT\t32768\ton\n\
    RAID-5\t500\tquick\tFAT\t16384\ton\n\
    RAID-5\t1000\tquick\tFAT\t4096\ton\n\
    Primary\t5000\tquick\tFAT32\t2048\ton\n\
    Mirror\t10\tquick\tFAT\t1024\ton\n";
